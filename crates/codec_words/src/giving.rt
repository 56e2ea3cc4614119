//! Values that words give signals.
ghost use Rattle.std.specs.Prelude.{◌≡◌, ℕ, List, bytes_eq, length, map, position, pos, slice_get, unwrap_or, IfOk, IfSome};
ghost use Rattle.std.specs.Option.{option_map, option_and_then};
ghost use Rattle.cg_out.specs.Words.{look_up};
ghost use Rattle.command_words.specs.NumberWord.{number_in};
ghost use Rattle.codec_words.specs.Given.{given_once, with_word, with_words};
ghost use Rattle.codec_words.specs.NamedValues as spec;

use can_model::{Message, Signal, is_field_value};
use cg_out::Memory;
use command_words::{Word, cut_at_last, number_in};
use name_table::Table;
use std::alloc::{AllocError, Global};

/// The values that words give the signals of a message, 0 where they give none; none where a word
/// is wrong or two words name one signal.
#[tactic(auto, using(crate::proofs::WordValues::given_values))]
pub(crate) fn values_of(
    alloc: Global,
    message: &Message,
    words: &[Word],
) -> Result<Option<Vec<i128>>, Memory>
    ensures value { IfOk result (λ o. option_map (λ v. v.items) o ≡ spec.values_of message.now words.now) }
    ensures size { IfOk result (λ o. IfSome o (λ v. length v.items ≡ length message.now.signals)) }
{
    let signals = message.signals.items();
    let indices = indices_of(alloc, signals)?;
    let mut given = vec![in alloc; None; signals.len()]?;
    Ok((Signals { message, indices }).values(alloc, words, &mut given)?)
}

/// The indices of signals by their names; of equal names the first counts.
fn indices_of<'a>(alloc: Global, signals: &'a [Signal]) -> Result<Table<'a, usize>, Memory>
    ensures { IfOk result (λ t. (name : List ℕ) → look_up name t ≡ position (λ s. bytes_eq s.name name) signals.now) }
{
    let mut indices = Table::new(alloc);
    for (i, signal) in signals.iter().enumerate() {
        indices.put_first(signal.name.bytes(), i)?;
    }
    Ok(indices)
}

/// These values, and 0 where there is none.
fn or_zeros(alloc: Global, values: &[Option<i128>]) -> Result<Vec<i128>, AllocError>
    ensures { IfOk result (λ v. v.items ≡ map (λ o. unwrap_or o (pos 0)) values.now) }
{
    values.iter().map(|value| value.unwrap_or(0)).collect(alloc)
}

/// The signals of a message, with their indices by name.
#[derive(Drop)]
struct Signals<'a> {
    message: &'a Message,
    indices: Table<'a, usize>,
    ghost known: { (name : List ℕ) → look_up name indices ≡ position (λ s. bytes_eq s.name name) message.now.signals },
}

impl<'a> Signals<'a> {
    /// The values that words give, where each gives one; `given` is what they are put into.
    fn values(
        &self,
        alloc: Global,
        words: &[Word],
        given: &mut [Option<i128>],
    ) -> Result<Option<Vec<i128>>, AllocError>
        ensures value { IfOk result (λ o. option_map (λ v. v.items) o ≡ option_map (map (λ o. unwrap_or o (pos 0))) (with_words self.now.message.now words.now given.old)) }
        ensures size { IfOk result (λ o. IfSome o (λ v. length v.items ≡ length given.old)) }
    {
        match self.give_all(words, given) {
            Some(()) => Ok(Some(or_zeros(alloc, given)?)),
            None => Ok(None),
        }
    }

    /// Gives signals the values that words name.
    fn give_all(&self, words: &[Word], values: &mut [Option<i128>]) -> Option<()>
        ensures { option_map (λ _. values.new) result ≡ with_words self.now.message.now words.now values.old }
    {
        for word in words {
            self.give(word.bytes(), values)?;
        }
        Some(())
    }

    /// Gives the signal that a word names its value.
    fn give(&self, word: &[u8], values: &mut [Option<i128>]) -> Option<()>
        ensures { option_map (λ _. values.new) result ≡ with_word self.now.message.now word.now values.old }
    {
        let (name, text) = cut_at_last(b'=', word)?;
        let (index, value) = self.given_by(name, text)?;
        give_once(index, value, values)
    }

    /// The index of the signal of this name, and the value that a text gives it.
    fn given_by(&self, name: &[u8], text: &[u8]) -> Option<(usize, i128)>
        ensures { result ≡ spec.given_by self.now.message.now name.now text.now }
    {
        let index = self.index(name)?;
        let signal = self.message.signals.items().get(index)?;
        let value = held_in(signal, text)?;
        Some((index, value))
    }

    /// The index of the signal of this name.
    fn index(&self, name: &[u8]) -> Option<usize>
        ensures { result ≡ position (λ s. bytes_eq s.name name.now) self.now.message.now.signals }
    {
        Some(*self.indices.get(name)?)
    }
}

/// The number that a text spells, where the field of a signal holds it.
fn held_in(signal: &Signal, text: &[u8]) -> Option<i128>
    ensures { result ≡ option_and_then (spec.held_by signal.now) (number_in text.now) }
{
    held_by(signal, number_in(text)?)
}

/// A number, where the field of a signal holds it.
fn held_by(signal: &Signal, number: i128) -> Option<i128>
    ensures { result ≡ spec.held_by signal.now number }
{
    if is_field_value(signal.length, signal.signed, number) {
        Some(number)
    } else {
        None
    }
}

/// Gives a signal a value, where it has none.
fn give_once(index: usize, value: i128, values: &mut [Option<i128>]) -> Option<()>
    ensures { option_map (λ _. values.new) result ≡ given_once values.old index value (slice_get values.old index) }
{
    if index >= values.len() {
        return None;
    }
    match values[index] {
        None => {
            values[index] = Some(value);
            Some(())
        }
        Some(_) => None,
    }
}
