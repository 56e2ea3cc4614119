//! The words of the command line.

use cg_out::Memory;
use cli_tool::Word;
use std::alloc::Global;
use std::env::FillError;
use std::rt::Env;

/// The words without the program's name, which are the first; they may be no text.
pub fn words<R: Env>(rt: &R, alloc: Global) -> Result<Vec<Word>, Memory> {
    let mut words = Vec::new(alloc);
    for number in 1..usize::MAX {
        match word(rt, alloc, number)? {
            Some(word) => words.push(word)?,
            None => break,
        }
    }
    Ok(words)
}

/// The word of this number, if there are so many. Its room is doubled until it fits.
fn word<R: Env>(rt: &R, alloc: Global, number: usize) -> Result<Option<Word>, Memory> {
    let mut room = 256usize;
    for _ in 0..usize::BITS {
        let mut bytes = vec![in alloc; 0u8; room]?;
        match rt.arg(number, bytes.as_mut_slice()) {
            Ok(length) => {
                bytes.truncate(length);
                return Ok(Some(Word::from_bytes(bytes)));
            }
            Err(FillError::NotPresent) => return Ok(None),
            Err(FillError::TooLong) => room = room.saturating_add(room),
        }
    }
    Err(Memory)
}
