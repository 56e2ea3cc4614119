//! The top call.
ghost use Rattle.cli_tool.specs.World.{world, KeepsCounts};
ghost use Rattle.cli_tool.specs.Ends.{Ends, Comes, IsPair};

use crate::performing::{perform, report};
use crate::reporting::usage;
use crate::status::Status;
use crate::words::found;
use cg_out::{Files, Sink};
use command_words::Word;
use std::alloc::Global;

/// Runs the command that the words (the command line without the program's name) are, over these
/// files, and reports to the sink.
///
/// `generate_c_source FILE` reads a DBC text and writes two files, where NAME is the identifier of
/// FILE's name without folders and ending: first the header `NAME.h`, with macros, a struct and a
/// prototype for each message, then the source `NAME.c`, with a pack function for each message. It
/// ends in `Status::Done` where both stand there, in `Status::Refused` where the text gives no valid
/// database and nothing is written, and in `Status::FileFault` where a write failed, which may leave
/// the header behind without its source, or the first bytes of either.
/// `check HEADER SOURCE` reads two C texts and tells their first fault, or `ok`.
/// `exec HEADER SOURCE MODEL FUNCTION ARG..` calls a function of them under `ilp32` or `lp64`, and
/// tells its value and what its objects hold, or the undefined behaviour that it meets, which is
/// `Status::Negative`. All other words, and words of which one is no UTF-8, are `Status::Usage`.
pub fn run<F: Files, O: Sink>(alloc: Global, words: &[Word], files: &mut F, out: &mut O) -> Status
    // How a run may end; what must come where the texts are told; what the pair is.
    ensures ends { Ends words.now (world (F.seen files.old) (O.seen out.old))
        (world (F.seen files.new) (O.seen out.new)) result }
    ensures comes { Comes words.now (world (F.seen files.old) (O.seen out.old))
        (world (F.seen files.new) (O.seen out.new)) result }
    ensures pair { IsPair words.now (world (F.seen files.old) (O.seen out.old))
        (world (F.seen files.new) (O.seen out.new)) result }
    ensures counts { KeepsCounts (world (F.seen files.old) (O.seen out.old))
        (world (F.seen files.new) (O.seen out.new)) }
{
    run_command(alloc, words, files, out)
}

fn run_command<F: Files, O: Sink>(
    alloc: Global,
    words: &[Word],
    files: &mut F,
    out: &mut O,
) -> Status
    ensures ends { Ends words.now (world (F.seen files.old) (O.seen out.old))
        (world (F.seen files.new) (O.seen out.new)) result }
    ensures counts { KeepsCounts (world (F.seen files.old) (O.seen out.old))
        (world (F.seen files.new) (O.seen out.new)) }
{
    match found(words) {
        Some(command) => perform(alloc, &command, files, out),
        None => report(out, usage(), Status::Usage),
    }
}
