//! A command, from its first read to its report.
ghost use Rattle.std.specs.Prelude.{◌≤◌, IfOk};
ghost use Rattle.cli_tool.specs.World.{world, KeepsCounts};
ghost use Rattle.cli_tool.specs.Task.{Gives, status_of, report_of};
ghost use Rattle.cli_tool.specs.Telling.{Tells, Delivers};
ghost use Rattle.cli_tool.specs.TaskEnds.{TaskEnds};
ghost use Rattle.cli_tool.specs.Asked.{task_by, answer_in};

use crate::answer::{Answer, Why};
use crate::command::Command;
use crate::reading::{FileText, read_texts, too_long};
use crate::reporting::refusal;
use crate::status::Status;
use crate::writing::write_files;
use can_model::TextKind;
use cg_out::{Failed, Files, Memory, Sink};
use std::alloc::Global;

/// Reads what the command reads, and writes and tells what the texts give.
pub fn perform<F: Files, O: Sink>(
    alloc: Global,
    command: &Command<'_>,
    files: &mut F,
    out: &mut O,
) -> Status
    ensures ends { TaskEnds (task_by command.now) (world (F.seen files.old) (O.seen out.old))
        (world (F.seen files.new) (O.seen out.new)) result }
    ensures counts { KeepsCounts (world (F.seen files.old) (O.seen out.old))
        (world (F.seen files.new) (O.seen out.new)) }
{
    let texts = match read_texts(alloc, command, files) {
        Ok(texts) => texts,
        Err(status) => return status,
    };
    match answered(alloc, command, &texts) {
        Ok(answer) => deliver(&answer, files, out),
        Err(Memory) => Status::NoMemory,
    }
}

/// What the texts give, or that one of them has more bytes than it may.
fn answered<'a>(
    alloc: Global,
    command: &Command<'a>,
    texts: &[FileText],
) -> Result<Answer<'a>, Memory>
    ensures { IfOk result (λ a. Gives (task_by command.now) texts.now (answer_in a)) }
{
    match too_long(command, texts) {
        None => command.answer(alloc, texts),
        Some(input) => Ok(Answer::Refused(
            refusal(alloc, TextKind::TooLarge, 0)?,
            Why {
                file: input.file,
                line: 0,
                column: None,
                message: TextKind::TooLarge.message(),
            },
        )),
    }
}

/// Writes the answer's files, and then its report; takes no memory.
fn deliver<F: Files, O: Sink>(answer: &Answer<'_>, files: &mut F, out: &mut O) -> Status
    ensures delivers { Delivers (answer_in answer.now) (world (F.seen files.old) (O.seen out.old))
        (world (F.seen files.new) (O.seen out.new)) result }
    ensures counts { KeepsCounts (world (F.seen files.old) (O.seen out.old))
        (world (F.seen files.new) (O.seen out.new)) }
{
    match write_files(answer.outputs(), files) {
        Ok(()) => tell(answer, out),
        Err(Failed) => Status::FileFault,
    }
}

/// Writes the answer's report, and says to a person why a text is refused.
fn tell<O: Sink>(answer: &Answer<'_>, out: &mut O) -> Status
    ensures told { Tells (O.seen out.old) (O.seen out.new) (report_of (answer_in answer.now))
        (status_of (answer_in answer.now)) result }
    ensures later { (O.seen out.old).faults ≤ (O.seen out.new).faults }
{
    let status = report(out, answer.report(), answer.status());
    // Whether the report could be written or not: a person is to learn the reason either way.
    if let Some(why) = answer.why() {
        out.explain(why.file, why.line, why.column, why.message);
    }
    status
}

/// Writes a report, and answers its status, or that the sink failed.
pub fn report<O: Sink>(out: &mut O, report: &[u8], status: Status) -> Status
    ensures told { Tells (O.seen out.old) (O.seen out.new) report.now status result }
    ensures later { (O.seen out.old).faults ≤ (O.seen out.new).faults }
{
    match out.write(report) {
        Ok(()) => status,
        Err(Failed) => Status::OutFault,
    }
}
