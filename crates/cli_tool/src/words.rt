//! The command that the words are.
ghost use Rattle.std.specs.Prelude.{◌≡◌};
ghost use Rattle.std.specs.List.{list_all};
ghost use Rattle.std.specs.Option.{option_map};
ghost use Rattle.std.specs.Char.{is_ascii_hexdigit};
ghost use Rattle.std.specs.Str.{is_utf8};
ghost use Rattle.cli_tool.specs.Command.{command_of, command_in};
ghost use Rattle.cli_tool.specs.Command as spec;
ghost use Rattle.cli_tool.specs.Asked.{asked_by, model_by};

use crate::command::{Call, Command, DataModel, Decoding, Encoding};
use command_words::{Word, is_number};

/// The command that the words are, if they are one.
pub fn found(words: &[Word]) -> Option<Command<'_>>
    ensures { option_map asked_by result ≡ command_of words.now }
{
    if are_utf8(words) {
        found_in(words)
    } else {
        None
    }
}

fn are_utf8(words: &[Word]) -> bool
    ensures { result ≡ list_all is_utf8 words.now }
{
    for word in words {
        if !word.is_utf8() {
            return false;
        }
    }
    true
}

/// The command that texts are, if they are one.
fn found_in(words: &[Word]) -> Option<Command<'_>>
    ensures { option_map asked_by result ≡ command_in words.now }
{
    let [name, words @ ..] = words else {
        return None;
    };
    let name = name.bytes();
    if name == b"generate_c_source".as_slice() {
        generate_in(words)
    } else if name == b"check".as_slice() {
        check_in(words)
    } else if name == b"exec".as_slice() {
        exec_in(words)
    } else if name == b"encode".as_slice() {
        encode_in(words)
    } else if name == b"decode".as_slice() {
        decode_in(words)
    } else {
        None
    }
}

fn generate_in(words: &[Word]) -> Option<Command<'_>>
    ensures { option_map asked_by result ≡ spec.generate_in words.now }
{
    match words {
        [file] => Some(Command::GenerateCSource(file.bytes())),
        _ => None,
    }
}

fn check_in(words: &[Word]) -> Option<Command<'_>>
    ensures { option_map asked_by result ≡ spec.check_in words.now }
{
    match words {
        [header, source] => Some(Command::Check(header.bytes(), source.bytes())),
        _ => None,
    }
}

fn exec_in(words: &[Word]) -> Option<Command<'_>>
    ensures { option_map asked_by result ≡ spec.exec_in words.now }
{
    match words {
        [header, source, model, function, words @ ..] => call_of(
            header.bytes(),
            source.bytes(),
            model,
            function.bytes(),
            words,
        ),
        _ => None,
    }
}

fn encode_in(words: &[Word]) -> Option<Command<'_>>
    ensures { option_map asked_by result ≡ spec.encode_in words.now }
{
    match words {
        [file, message, words @ ..] => Some(Command::Encode(Encoding {
            file: file.bytes(),
            message: message.bytes(),
            words,
        })),
        _ => None,
    }
}

fn decode_in(words: &[Word]) -> Option<Command<'_>>
    ensures { option_map asked_by result ≡ spec.decode_in words.now }
{
    match words {
        [file, number, digits] => {
            if is_number(number.bytes()) && are_pairs(digits.bytes()) {
                Some(Command::Decode(Decoding {
                    file: file.bytes(),
                    number: number.bytes(),
                    digits: digits.bytes(),
                }))
            } else {
                None
            }
        }
        _ => None,
    }
}

/// Pairs of hexadecimal digits.
fn are_pairs(digits: &[u8]) -> bool
    ensures { result ≡ spec.are_pairs digits.now }
{
    digits.len() % 2 == 0 && are_hexdigits(digits)
}

fn are_hexdigits(bytes: &[u8]) -> bool
    ensures { result ≡ list_all is_ascii_hexdigit bytes.now }
{
    for byte in bytes {
        if !byte.is_ascii_hexdigit() {
            return false;
        }
    }
    true
}

/// A call under the model that a word names.
fn call_of<'a>(
    header: &'a [u8],
    source: &'a [u8],
    model: &Word,
    function: &'a [u8],
    words: &'a [Word],
) -> Option<Command<'a>>
    ensures { option_map asked_by result ≡ spec.call_of header.now source.now function.now words.now (spec.model_named model.now) }
{
    match model_named(model.bytes()) {
        Some(model) => Some(Command::Exec(Call {
            header,
            source,
            model,
            function,
            words,
        })),
        None => None,
    }
}

fn model_named(word: &[u8]) -> Option<DataModel>
    ensures { option_map model_by result ≡ spec.model_named word.now }
{
    if word == b"ilp32".as_slice() {
        Some(DataModel::Ilp32)
    } else if word == b"lp64".as_slice() {
        Some(DataModel::Lp64)
    } else {
        None
    }
}
