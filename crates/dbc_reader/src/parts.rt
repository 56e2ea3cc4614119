//! Parts of statements; `end` is the line of the text's end.
ghost use Rattle.std.specs.Prelude.{◌≡◌};
ghost use Rattle.can_model.specs.Refusal.{Gives};
ghost use Rattle.dbc_reader.specs.Parts as parts;
ghost use Rattle.dbc_reader.specs.Template.{word, take};
ghost use Rattle.dbc_reader.specs.Reading.{seen};

use crate::statement::{ChoicePair, Owner, Value};
use crate::taking::{
    Check, is_next, is_next_word, take_decimal, take_mark, take_string, take_whole, take_whole_64,
    take_word,
};
use crate::token::Tokens;
use can_model::{MuxRange, TextFault};
use cg_out::{List, Text};
use limit_fraction::Decimal;
use std::alloc::Global;
use std::convert::identity;

/// An optional sign and a number.
pub fn read_value(tokens: Tokens<'_>, end: u32) -> Result<(Decimal, Tokens<'_>), TextFault>
    ensures { Gives (λ x. (x.0, x.1.now)) result (seen end parts.value parts.value_of tokens.now) }
{
    if is_next(Check::Mark(b'-'), tokens) {
        let rest = take_mark(tokens, b'-', end)?;
        let (size, rest) = take_decimal(rest, end)?;
        Ok((size.negated(), rest))
    } else if is_next(Check::Mark(b'+'), tokens) {
        let rest = take_mark(tokens, b'+', end)?;
        take_decimal(rest, end)
    } else {
        take_decimal(tokens, end)
    }
}

/// Two values in the brackets `left` and `right`, with a mark between them.
#[tactic(auto, using(crate::proofs::Stepwise::enclosed_steps))]
pub fn read_enclosed(
    tokens: Tokens<'_>,
    left: u8,
    between: u8,
    right: u8,
    end: u32,
) -> Result<((Decimal, Decimal), Tokens<'_>), TextFault>
    ensures { Gives (λ x. (x.0, x.1.now)) result (seen end (parts.enclosed left between right) (parts.enclosed_of left between right) tokens.now) }
{
    let rest = take_mark(tokens, left, end)?;
    let (first, rest) = read_value(rest, end)?;
    let rest = take_mark(rest, between, end)?;
    let (second, rest) = read_value(rest, end)?;
    let rest = take_mark(rest, right, end)?;
    Ok(((first, second), rest))
}

/// What a comment or an attribute is of.
pub fn read_target(
    alloc: Global,
    tokens: Tokens<'_>,
    end: u32,
) -> Result<(Owner, Tokens<'_>), TextFault>
    ensures { Gives (λ x. (x.0, x.1.now)) result (seen end parts.target parts.owner_of tokens.now) }
{
    if is_next_word(b"BU_", tokens) {
        let (_, rest) = take_word(tokens, end)?;
        let (name, rest) = take_word(rest, end)?;
        let name = Text::copy_of(alloc, name)?;
        Ok((Owner::Node(name), rest))
    } else if is_next_word(b"BO_", tokens) {
        let (_, rest) = take_word(tokens, end)?;
        let (id, rest) = take_whole(rest, u32::MAX, end)?;
        Ok((Owner::Message(id), rest))
    } else if is_next_word(b"SG_", tokens) {
        let (_, rest) = take_word(tokens, end)?;
        let (id, rest) = take_whole(rest, u32::MAX, end)?;
        let (name, rest) = take_word(rest, end)?;
        let name = Text::copy_of(alloc, name)?;
        Ok((Owner::Signal(id, name), rest))
    } else if is_next_word(b"EV_", tokens) {
        let (_, rest) = take_word(tokens, end)?;
        let (name, rest) = take_word(rest, end)?;
        let name = Text::copy_of(alloc, name)?;
        Ok((Owner::Variable(name), rest))
    } else {
        Ok((Owner::None, tokens))
    }
}

/// A string or a value.
pub fn read_attribute_value(
    alloc: Global,
    tokens: Tokens<'_>,
    end: u32,
) -> Result<(Value, Tokens<'_>), TextFault>
    ensures { Gives (λ x. (x.0, x.1.now)) result (seen end parts.attribute_value parts.attribute_value_of tokens.now) }
{
    if is_next(Check::String, tokens) {
        let (text, rest) = take_string(tokens, end)?;
        let text = Text::copy_of(alloc, text)?;
        Ok((Value::String(text), rest))
    } else {
        let (number, rest) = read_value(tokens, end)?;
        Ok((Value::Number(number), rest))
    }
}

/// A string, a word or a value.
pub fn read_default_value(
    alloc: Global,
    tokens: Tokens<'_>,
    end: u32,
) -> Result<(Value, Tokens<'_>), TextFault>
    ensures { Gives (λ x. (x.0, x.1.now)) result (seen end parts.default_value parts.default_value_of tokens.now) }
{
    if is_next(Check::String, tokens) {
        let (text, rest) = take_string(tokens, end)?;
        let text = Text::copy_of(alloc, text)?;
        Ok((Value::String(text), rest))
    } else if is_next(Check::Word, tokens) {
        let (word, rest) = take_word(tokens, end)?;
        let word = Text::copy_of(alloc, word)?;
        Ok((Value::Word(word), rest))
    } else {
        let (number, rest) = read_value(tokens, end)?;
        Ok((Value::Number(number), rest))
    }
}

/// A value and its name.
fn read_pair(
    alloc: Global,
    tokens: Tokens<'_>,
    end: u32,
) -> Result<(ChoicePair, Tokens<'_>), TextFault>
    ensures { Gives (λ x. (x.0, x.1.now)) result (seen end parts.pair parts.pair_of tokens.now) }
{
    let (value, rest) = read_value(tokens, end)?;
    let (text, rest) = take_string(rest, end)?;
    let text = Text::copy_of(alloc, text)?;
    Ok((ChoicePair { value, text }, rest))
}

/// Pairs, as long as a number or a sign follows.
pub fn read_pairs(
    alloc: Global,
    tokens: Tokens<'_>,
    end: u32,
) -> Result<(List<ChoicePair>, Tokens<'_>), TextFault>
    ensures { Gives (λ x. (x.0, x.1.now)) result (seen end parts.pairs parts.pairs_of tokens.now) }
{
    let mut list = List::new(alloc);
    let mut left = tokens;
    while is_next(Check::Value, left) {
        let (pair, after) = read_pair(alloc, left, end)?;
        list.push(pair)?;
        // The check brings `after` to the lifetime of `left` in a call, not in an assignment.
        left = identity(after);
    }
    Ok((list, left))
}

/// Two whole numbers with `-` between them.
fn read_range(tokens: Tokens<'_>, end: u32) -> Result<(MuxRange, Tokens<'_>), TextFault>
    ensures { Gives (λ x. (x.0, x.1.now)) result (seen end parts.range parts.range_of tokens.now) }
{
    let (first, rest) = take_whole_64(tokens, u64::MAX, end)?;
    let rest = take_mark(rest, b'-', end)?;
    let (last, rest) = take_whole_64(rest, u64::MAX, end)?;
    Ok((MuxRange { first, last }, rest))
}

fn read_range_behind(tokens: Tokens<'_>, end: u32) -> Result<(MuxRange, Tokens<'_>), TextFault>
    ensures { Gives (λ x. (x.0, x.1.now)) result (seen end (parts.with_comma parts.range) parts.range_behind tokens.now) }
{
    let rest = take_mark(tokens, b',', end)?;
    read_range(rest, end)
}

/// Ranges, one or more, with `,` between them.
#[tactic(auto, using(crate::proofs::Stepwise::ranges_steps))]
pub fn read_ranges(
    alloc: Global,
    tokens: Tokens<'_>,
    end: u32,
) -> Result<(List<MuxRange>, Tokens<'_>), TextFault>
    ensures { Gives (λ x. (x.0, x.1.now)) result (seen end parts.some_ranges parts.some_ranges_of tokens.now) }
{
    let (first, rest) = read_range(tokens, end)?;
    read_further_ranges(alloc, first, rest, end)
}

/// This range and those that follow, each behind a `,`.
fn read_further_ranges(
    alloc: Global,
    first: MuxRange,
    tokens: Tokens<'_>,
    end: u32,
) -> Result<(List<MuxRange>, Tokens<'_>), TextFault>
    ensures { Gives (λ x. (x.0, x.1.now)) result (seen end (parts.further parts.range) (parts.with_ranges first) tokens.now) }
{
    let mut list = List::new(alloc);
    list.push(first)?;
    let mut left = tokens;
    while is_next(Check::Mark(b','), left) {
        let (range, after) = read_range_behind(left, end)?;
        list.push(range)?;
        // The check brings `after` to the lifetime of `left` in a call, not in an assignment.
        left = identity(after);
    }
    Ok((list, left))
}

fn read_word_behind(
    alloc: Global,
    tokens: Tokens<'_>,
    end: u32,
) -> Result<(Text, Tokens<'_>), TextFault>
    ensures { Gives (λ x. (x.0, x.1.now)) result (seen end (parts.with_comma (take word)) parts.word_behind tokens.now) }
{
    let rest = take_mark(tokens, b',', end)?;
    let (word, rest) = take_word(rest, end)?;
    Ok((Text::copy_of(alloc, word)?, rest))
}

/// Words, one or more, with `,` between them.
fn read_words(
    alloc: Global,
    tokens: Tokens<'_>,
    end: u32,
) -> Result<(List<Text>, Tokens<'_>), TextFault>
    ensures { Gives (λ x. (x.0, x.1.now)) result (seen end parts.some_words parts.some_words_of tokens.now) }
{
    let (first, rest) = take_word(tokens, end)?;
    read_further_words(alloc, Text::copy_of(alloc, first)?, rest, end)
}

/// This word and those that follow, each behind a `,`.
fn read_further_words(
    alloc: Global,
    first: Text,
    tokens: Tokens<'_>,
    end: u32,
) -> Result<(List<Text>, Tokens<'_>), TextFault>
    ensures { Gives (λ x. (x.0, x.1.now)) result (seen end (parts.further (take word)) (parts.with_words first) tokens.now) }
{
    let mut list = List::new(alloc);
    list.push(first)?;
    let mut left = tokens;
    while is_next(Check::Mark(b','), left) {
        let (word, after) = read_word_behind(alloc, left, end)?;
        list.push(word)?;
        // The check brings `after` to the lifetime of `left` in a call, not in an assignment.
        left = identity(after);
    }
    Ok((list, left))
}

/// Receivers, or none where no word follows that is no keyword.
pub fn read_receivers(
    alloc: Global,
    tokens: Tokens<'_>,
    end: u32,
) -> Result<(List<Text>, Tokens<'_>), TextFault>
    ensures { Gives (λ x. (x.0, x.1.now)) result (seen end parts.receivers parts.receivers_of tokens.now) }
{
    if is_next(Check::Name, tokens) {
        read_words(alloc, tokens, end)
    } else {
        Ok((List::new(alloc), tokens))
    }
}
