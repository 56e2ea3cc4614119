//! The answers of `encode` and `decode`.
ghost use Rattle.std.specs.Prelude.{◌≡◌, None, IfOk};
ghost use Rattle.can_model.specs.Validity.{IsValid};
ghost use Rattle.cli_tool.specs.CodecTasks.{told_report, TellsFrame, TellsValues, TellsValuesOf};
ghost use Rattle.cli_tool.specs.DatabaseInFile.{HasAnswer};
ghost use Rattle.cli_tool.specs.Asked.{answer_in};

use crate::answer::{Answer, Why};
use crate::command::{Decoding, Encoding};
use crate::database::database_in;
use can_model::Database;
use cg_out::Memory;
use codec_words::{frame_report, message_named, message_numbered, values_report};
use hex::FromHexError;
use std::alloc::Global;

/// What the text of the file gives: the frame of the values, or it is refused.
pub fn encoded<'a>(alloc: Global, asked: &Encoding<'a>, text: &[u8]) -> Result<Answer<'a>, Memory>
    ensures { IfOk result (λ a. HasAnswer (TellsFrame asked.now.message.now asked.now.words.now) asked.now.file.now text.now (answer_in a)) }
{
    match database_in(alloc, asked.file, text)? {
        Ok(checked) => frame_told(alloc, asked, checked.database()),
        Err(answer) => Ok(answer),
    }
}

/// The frame of the values, or the words are wrong.
fn frame_told<'a>(
    alloc: Global,
    asked: &Encoding<'a>,
    database: &Database,
) -> Result<Answer<'a>, Memory>
    requires { IsValid database.now }
    ensures { IfOk result (λ a. TellsFrame asked.now.message.now asked.now.words.now database.now (answer_in a)) }
{
    let Some(message) = message_named(database.messages.items(), asked.message) else {
        return Ok(wrong(asked.file, 0, "no message has this name"));
    };
    match frame_report(alloc, message, asked.words)? {
        Some(report) => Ok(Answer::Outcome(true, Vec::new(alloc), report)),
        None => Ok(wrong(
            asked.file,
            message.line,
            "these words are no values of the signals of this message",
        )),
    }
}

/// What the text of the file gives: the values of the frame, or it is refused.
pub fn decoded<'a>(alloc: Global, asked: &Decoding<'a>, text: &[u8]) -> Result<Answer<'a>, Memory>
    ensures { IfOk result (λ a. HasAnswer (TellsValues asked.now.number.now asked.now.digits.now) asked.now.file.now text.now (answer_in a)) }
{
    match database_in(alloc, asked.file, text)? {
        Ok(checked) => digits_told(alloc, asked, checked.database()),
        Err(answer) => Ok(answer),
    }
}

/// The values of the frame that the digits spell.
fn digits_told<'a>(
    alloc: Global,
    asked: &Decoding<'a>,
    database: &Database,
) -> Result<Answer<'a>, Memory>
    requires { IsValid database.now }
    ensures { IfOk result (λ a. TellsValues asked.now.number.now asked.now.digits.now database.now (answer_in a)) }
{
    match hex::decode(alloc, asked.digits) {
        Ok(frame) => values_told(alloc, asked, database, &frame),
        Err(FromHexError::OutOfMemory) => Err(Memory),
        Err(_) => Ok(Answer::WrongWords(None)),
    }
}

/// The values of the frame, or the words are wrong.
fn values_told<'a>(
    alloc: Global,
    asked: &Decoding<'a>,
    database: &Database,
    frame: &[u8],
) -> Result<Answer<'a>, Memory>
    requires { IsValid database.now }
    ensures { IfOk result (λ a. TellsValuesOf asked.now.number.now frame.now database.now (answer_in a)) }
{
    let Some(message) = message_numbered(database.messages.items(), asked.number) else {
        return Ok(wrong(asked.file, 0, "no message has this number"));
    };
    match values_report(alloc, message, frame)? {
        Some(report) => Ok(Answer::Outcome(true, Vec::new(alloc), report)),
        None => Ok(wrong(
            asked.file,
            message.line,
            "a frame of this message has more bytes",
        )),
    }
}

/// The words are wrong, for this reason.
fn wrong<'a>(file: &'a [u8], line: u32, message: &'static str) -> Answer<'a>
    ensures { answer_in result ≡ told_report None }
{
    Answer::WrongWords(Some(Why {
        file,
        line,
        column: None,
        message,
    }))
}
