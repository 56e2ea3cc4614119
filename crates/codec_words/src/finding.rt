//! The message that a word means.
ghost use Rattle.std.specs.Prelude.{◌≡◌, Some, pos};
ghost use Rattle.std.specs.List.{find};
ghost use Rattle.std.specs.Option.{option_copied};
ghost use Rattle.codec_words.specs.Finding as spec;

use can_model::Message;
use command_words::number_in;

/// The first message of this name, if there is one.
pub fn message_named<'a>(messages: &'a [Message], name: &[u8]) -> Option<&'a Message>
    ensures { option_copied result ≡ spec.message_named name.now messages.now }
{
    messages.iter().find(|m| m.name.bytes() == name)
}

/// The first message whose number a word spells, if there is one: its frame id, with bit 31 where
/// the frame is extended, in decimal digits.
pub fn message_numbered<'a>(messages: &'a [Message], word: &[u8]) -> Option<&'a Message>
    ensures { option_copied result ≡ spec.message_numbered word.now messages.now }
{
    match number_in(word) {
        Some(number) => with_number(messages, number),
        None => None,
    }
}

fn with_number(messages: &[Message], number: i128) -> Option<&Message>
    ensures { option_copied result ≡ find (λ m. spec.is_number_of m (Some number)) messages.now }
{
    messages.iter().find(|m| number_of(m) == number)
}

/// The number of a message's statement.
fn number_of(message: &Message) -> i128
    ensures { result ≡ pos (spec.number_of message.now) }
{
    let id = i128::from(message.id);
    if message.extended { id + (1 << 31) } else { id }
}
