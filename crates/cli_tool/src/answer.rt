//! What texts give.
ghost use Rattle.std.specs.Prelude.{◌≡◌};
ghost use Rattle.cli_tool.specs.Task.{status_of, outputs_of, report_of};
ghost use Rattle.cli_tool.specs.Asked.{answer_in};

use crate::reporting::usage;
use crate::status::Status;
use std::marker::Model;

/// A file that is written, and its bytes.
#[derive(Drop)]
pub struct Output {
    pub file: Vec<u8>,
    pub bytes: Vec<u8>,
}

impl Model for Output {
    ghost use Rattle.cli_tool.specs.Task.{Output as Written};

    ghost Value = { Written };

    ghost view = { λ o. record { file = o.file.items; bytes = o.bytes.items } };
}

/// Why a text is refused, or words are wrong, for a person.
#[derive(Clone, Copy)]
pub struct Why<'a> {
    /// The file, as the words name it.
    pub file: &'a [u8],
    /// Counted from 1; 0 where the text as a whole is meant.
    pub line: u32,
    /// In bytes, counted from 1.
    pub column: Option<u32>,
    pub message: &'static str,
}

/// What the texts of a command give, with all that is to be written.
#[derive(Drop)]
pub enum Answer<'a> {
    /// The words are wrong after all, and why, where more can be told of it.
    WrongWords(Option<Why<'a>>),
    /// A text is refused, by this report.
    Refused(Vec<u8>, Why<'a>),
    /// The command is done: whether its answer is yes, the files to write in order, the report.
    Outcome(bool, Vec<Output>, Vec<u8>),
}

impl<'a> Answer<'a> {
    /// The status of a run that gave it, where nothing failed.
    pub fn status(&self) -> Status
        ensures { result ≡ status_of (answer_in self.now) }
    {
        match self {
            Answer::WrongWords(_) => Status::Usage,
            Answer::Refused(_, _) => Status::Refused,
            Answer::Outcome(true, _, _) => Status::Done,
            Answer::Outcome(false, _, _) => Status::Negative,
        }
    }

    /// The files to write, in order.
    pub fn outputs(&self) -> &[Output]
        ensures { result.now ≡ outputs_of (answer_in self.now) }
    {
        match self {
            Answer::WrongWords(_) | Answer::Refused(_, _) => &[],
            Answer::Outcome(_, outputs, _) => outputs.as_slice(),
        }
    }

    pub fn report(&self) -> &[u8]
        ensures { result.now ≡ report_of (answer_in self.now) }
    {
        match self {
            Answer::WrongWords(_) => usage(),
            Answer::Refused(report, _) => report.as_slice(),
            Answer::Outcome(_, _, report) => report.as_slice(),
        }
    }

    /// Why a text is refused, or the words are wrong after all.
    pub fn why(&self) -> Option<Why<'a>> {
        match self {
            Answer::Refused(_, why) => Some(*why),
            Answer::WrongWords(why) => *why,
            Answer::Outcome(_, _, _) => None,
        }
    }
}
