//! What the values of attributes, choices and limits mean.
ghost use Rattle.std.specs.Prelude.{◌≡◌, Some, filter_map, option_and_then, IfOk};
ghost use Rattle.std.specs.Option.{option_copied};
ghost use Rattle.dbc_build.specs.Reading.{long_name, whole_in, cycle_from, raw_in, initial_from, choice_from, choices_from, is_float_type, is_zero, limit_from};
ghost use Rattle.limit_fraction.specs.Decimal.{whole_of};

use can_model::{Choice, is_raw};
use cg_out::{List, Memory, Text};
use dbc_reader::{ChoicePair, Value};
use limit_fraction::Decimal;
use std::alloc::Global;

/// The longest cycle, in milliseconds.
const LONGEST_CYCLE: i128 = 4_294_967_295;

/// The name of a message or a signal: a string that is not empty, or else what is written.
pub fn long_name<'a>(written: &'a [u8], value: Option<&'a Value>) -> &'a [u8]
    ensures { result.now ≡ long_name written.now (option_copied value.entry) }
{
    match value {
        Some(Value::String(text)) if !text.bytes().is_empty() => text.bytes(),
        _ => written,
    }
}

/// The cycle that a value gives, in milliseconds.
pub fn cycle(value: Option<&Value>) -> Option<u32>
    ensures { result ≡ cycle_from (whole_in (option_copied value.entry)) }
{
    cycle_of(whole(value)?)
}

fn cycle_of(value: i128) -> Option<u32>
    ensures { result ≡ cycle_from (Some value) }
{
    if 1 <= value && value <= LONGEST_CYCLE {
        Some(value as u32)
    } else {
        None
    }
}

/// The whole number that a value is.
fn whole(value: Option<&Value>) -> Option<i128>
    ensures { result ≡ whole_in (option_copied value.entry) }
{
    match value {
        Some(Value::Number(number)) => number.whole(),
        _ => None,
    }
}

/// The raw value that a value gives a signal of this length and sign.
pub fn initial(length: u32, signed: bool, value: Option<&Value>) -> Option<i128>
    ensures { result ≡ initial_from length signed (whole_in (option_copied value.entry)) }
{
    raw(length, signed, whole(value)?)
}

fn raw(length: u32, signed: bool, value: i128) -> Option<i128>
    ensures { result ≡ raw_in length signed value }
{
    if is_raw(length, signed, value) {
        Some(value)
    } else {
        None
    }
}

/// The choices of a signal of this length and sign.
pub fn choices(
    alloc: Global,
    length: u32,
    signed: bool,
    pairs: Option<&List<ChoicePair>>,
) -> Result<List<Choice>, Memory>
    ensures { IfOk result (λ l. l ≡ choices_from length signed (option_copied pairs.entry)) }
{
    match pairs {
        Some(pairs) => choices_of(alloc, length, signed, pairs.items()),
        None => Ok(List::new(alloc)),
    }
}

fn choices_of(
    alloc: Global,
    length: u32,
    signed: bool,
    pairs: &[ChoicePair],
) -> Result<List<Choice>, Memory>
    ensures { IfOk result (λ l. l ≡ filter_map (choice_from length signed) pairs.now) }
{
    let mut choices = List::new(alloc);
    for pair in pairs {
        if let Some(choice) = choice(alloc, length, signed, pair)? {
            choices.push(choice)?;
        }
    }
    Ok(choices)
}

fn choice(
    alloc: Global,
    length: u32,
    signed: bool,
    pair: &ChoicePair,
) -> Result<Option<Choice>, Memory>
    ensures { IfOk result (λ c. c ≡ choice_from length signed pair.now) }
{
    match raw_number(length, signed, &pair.value) {
        Some(value) => Ok(Some(Choice {
            value,
            name: Text::copy_of(alloc, pair.text.bytes())?,
        })),
        None => Ok(None),
    }
}

fn raw_number(length: u32, signed: bool, number: &Decimal) -> Option<i128>
    ensures { result ≡ option_and_then (raw_in length signed) (whole_of number.now) }
{
    raw(length, signed, number.whole()?)
}

/// Whether a signal is an IEEE 754 number.
pub fn is_float(number: Option<&u32>) -> bool
    ensures { result ≡ is_float_type (option_copied number.entry) }
{
    match number {
        Some(number) => *number == 1 || *number == 2,
        None => false,
    }
}

/// One of the limits, where they are limits.
pub fn limit(low: &Decimal, high: &Decimal, limit: &Decimal) -> Option<Decimal>
    ensures { result ≡ limit_from low.now high.now limit.now }
{
    if is_zero(low) && is_zero(high) {
        None
    } else {
        Some(*limit)
    }
}

fn is_zero(number: &Decimal) -> bool
    ensures { result ≡ is_zero number.now }
{
    number.mantissa == 0
}
