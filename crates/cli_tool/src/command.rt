//! The commands: what each reads, and what the texts give.
ghost use Rattle.std.specs.Prelude.{◌≡◌, ◌<◌, true, slice_get, length, IfOk};
ghost use Rattle.cli_tool.specs.CheckTask as task;
ghost use Rattle.cli_tool.specs.DatabaseInFile as database;
ghost use Rattle.cli_tool.specs.Task.{are_within};
ghost use Rattle.cli_tool.specs.Asked.{task_by, answer_in};

use crate::answer::Answer;
use crate::checking::checked;
use crate::coding::{decoded, encoded};
use crate::executing::executed;
use crate::generating::generated;
use crate::reading::{FileText, Input};
use c_lexer::SOURCE_LIMIT;
use can_model::TEXT_LIMIT;
use cg_out::Memory;
use command_words::Word;
use std::alloc::Global;

/// The data models by their names.
#[derive(Clone, Copy)]
pub enum DataModel {
    Ilp32,
    Lp64,
}

/// A call of a function of two C texts.
#[derive(Clone, Copy)]
pub struct Call<'a> {
    pub header: &'a [u8],
    pub source: &'a [u8],
    pub model: DataModel,
    pub function: &'a [u8],
    /// The arguments, as they are spelled.
    pub words: &'a [Word],
}

/// Values for the signals of a message.
#[derive(Clone, Copy)]
pub struct Encoding<'a> {
    pub file: &'a [u8],
    /// The message's name.
    pub message: &'a [u8],
    /// NAME=VALUE each.
    pub words: &'a [Word],
}

/// A frame of a message.
#[derive(Clone, Copy)]
pub struct Decoding<'a> {
    pub file: &'a [u8],
    /// The number of the message's statement, in decimal digits.
    pub number: &'a [u8],
    /// The frame, in pairs of hexadecimal digits.
    pub digits: &'a [u8],
}

/// What the words ask for.
#[derive(Clone, Copy)]
pub enum Command<'a> {
    /// Write the C header of the database in this file.
    GenerateCSource(&'a [u8]),
    /// Tell the first fault of this header and this source, if they have one.
    Check(&'a [u8], &'a [u8]),
    /// Call a function, and tell what it gives.
    Exec(Call<'a>),
    /// Tell the frame of these values.
    Encode(Encoding<'a>),
    /// Tell the values of this frame.
    Decode(Decoding<'a>),
}

impl<'a> Command<'a> {
    /// The file that is read behind so many others; takes no memory.
    pub fn input(&self, index: usize) -> Option<Input<'a>>
        ensures { result ≡ slice_get (task_by self.now).inputs index }
    {
        match (*self, index) {
            (Command::GenerateCSource(file), 0) => Some(database_input(file)),
            (Command::Encode(asked), 0) => Some(database_input(asked.file)),
            (Command::Decode(asked), 0) => Some(database_input(asked.file)),
            (Command::Check(header, _), 0) => Some(c_input(header)),
            (Command::Check(_, source), 1) => Some(c_input(source)),
            (Command::Exec(call), 0) => Some(c_input(call.header)),
            (Command::Exec(call), 1) => Some(c_input(call.source)),
            _ => None,
        }
    }

    /// What texts give that have no more bytes than they may.
    pub fn answer(&self, alloc: Global, texts: &[FileText]) -> Result<Answer<'a>, Memory>
        requires { are_within (task_by self.now).inputs texts.now ≡ true }
        ensures { IfOk result (λ a. (task_by self.now).gives texts.now (answer_in a)) }
    {
        match (*self, texts) {
            (Command::GenerateCSource(file), [text]) => generated(alloc, file, text.bytes()),
            (Command::Check(header, source), [header_text, source_text]) => checked(
                alloc,
                header,
                source,
                header_text.bytes(),
                source_text.bytes(),
            ),
            (Command::Exec(call), [header_text, source_text]) => {
                executed(alloc, &call, header_text.bytes(), source_text.bytes())
            }
            (Command::Encode(asked), [text]) => encoded(alloc, &asked, text.bytes()),
            (Command::Decode(asked), [text]) => decoded(alloc, &asked, text.bytes()),
            _ => Ok(Answer::WrongWords(None)),
        }
    }
}

/// The text of a database that is read.
fn database_input(file: &[u8]) -> Input<'_>
    ensures { result ≡ database.database_input file.now }
{
    Input {
        file,
        limit: TEXT_LIMIT,
    }
}

/// A C text that is read.
fn c_input(file: &[u8]) -> Input<'_>
    ensures { result ≡ task.c_input file.now }
{
    Input {
        file,
        limit: SOURCE_LIMIT,
    }
}
