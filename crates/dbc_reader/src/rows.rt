//! What stands behind the first word of a statement; `end` is the line of the text's end.
ghost use Rattle.std.specs.Prelude.{◌≡◌, ℕ, Ok};
ghost use Rattle.can_model.specs.Refusal.{Gives};
ghost use Rattle.dbc_reader.specs.Parts as parts;
ghost use Rattle.dbc_reader.specs.Rows as rows;
ghost use Rattle.dbc_reader.specs.Reading.{seen};

use crate::parts::{
    read_attribute_value, read_default_value, read_enclosed, read_pairs, read_ranges,
    read_receivers, read_target,
};
use crate::statement::Body;
use crate::taking::{
    Check, is_next, past_run, refuse_mux_word, take_mark, take_sign, take_string, take_whole,
    take_word,
};
use crate::token::{Token, Tokens};
use can_model::TextFault;
use cg_out::Text;
use std::alloc::Global;

/// An optional string.
pub fn read_version(tokens: Tokens<'_>) -> Tokens<'_>
    ensures { (end : ℕ) → seen end rows.version rows.nothing_kept tokens.now ≡ Ok (Body.Skipped, result.now) }
{
    let [first, rest @ ..] = tokens else {
        return tokens;
    };
    match first.token() {
        Token::String(_) => rest,
        _ => tokens,
    }
}

/// `:` and a run of numbers, `:` and `,`.
pub fn read_speeds(tokens: Tokens<'_>, end: u32) -> Result<Tokens<'_>, TextFault>
    ensures { Gives (λ x. (Body.Skipped, x.now)) result (seen end rows.speeds rows.nothing_kept tokens.now) }
{
    let rest = take_mark(tokens, b':', end)?;
    Ok(past_run(Check::Speed, rest))
}

/// `:` and a run of names.
pub fn read_nodes(tokens: Tokens<'_>, end: u32) -> Result<Tokens<'_>, TextFault>
    ensures { Gives (λ x. (Body.Skipped, x.now)) result (seen end rows.nodes rows.nothing_kept tokens.now) }
{
    let rest = take_mark(tokens, b':', end)?;
    Ok(past_run(Check::Name, rest))
}

/// The id, the name, `:`, the length and the sender.
pub fn read_message(
    alloc: Global,
    tokens: Tokens<'_>,
    end: u32,
) -> Result<(Body, Tokens<'_>), TextFault>
    ensures { Gives (λ x. (x.0, x.1.now)) result (seen end rows.message rows.message_body tokens.now) }
{
    let (id, rest) = take_whole(tokens, u32::MAX, end)?;
    let (name, rest) = take_word(rest, end)?;
    let rest = take_mark(rest, b':', end)?;
    let (length, rest) = take_whole(rest, 65535, end)?;
    let (_sender, rest) = take_word(rest, end)?;
    let name = Text::copy_of(alloc, name)?;
    Ok((Body::Message { id, name, length }, rest))
}

/// Where a signal stands, and how its bits are read.
#[derive(Clone, Copy, Debug)]
struct Layout {
    start: u32,
    length: u32,
    motorola: bool,
    signed: bool,
}

/// The start, `|`, the length, `@`, 1 for Intel or 0 for Motorola, and the sign.
fn read_layout(tokens: Tokens<'_>, end: u32) -> Result<(Layout, Tokens<'_>), TextFault>
    ensures { Gives (λ x. (x.0, x.1.now)) result (seen end rows.layout rows.layout_of tokens.now) }
{
    let (start, rest) = take_whole(tokens, 65535, end)?;
    let rest = take_mark(rest, b'|', end)?;
    let (length, rest) = take_whole(rest, 65535, end)?;
    let rest = take_mark(rest, b'@', end)?;
    let (order, rest) = take_whole(rest, 1, end)?;
    let (signed, rest) = take_sign(rest, end)?;
    let layout = Layout {
        start,
        length,
        motorola: order == 0,
        signed,
    };
    Ok((layout, rest))
}

/// The name, `:`, the layout, the scaling, the limits, the unit and the receivers.
#[tactic(auto, using(crate::proofs::Stepwise::signal_steps))]
pub fn read_signal(
    alloc: Global,
    tokens: Tokens<'_>,
    end: u32,
) -> Result<(Body, Tokens<'_>), TextFault>
    ensures { Gives (λ x. (x.0, x.1.now)) result (seen end rows.signal rows.signal_body tokens.now) }
{
    let (name, rest) = take_word(tokens, end)?;
    refuse_mux_word(rest)?;
    let rest = take_mark(rest, b':', end)?;
    let (layout, rest) = read_layout(rest, end)?;
    let ((factor, offset), rest) = read_enclosed(rest, b'(', b',', b')', end)?;
    let ((min, max), rest) = read_enclosed(rest, b'[', b'|', b']', end)?;
    let (unit, rest) = take_string(rest, end)?;
    let (receivers, rest) = read_receivers(alloc, rest, end)?;
    let body = Body::Signal {
        name: Text::copy_of(alloc, name)?,
        start: layout.start,
        length: layout.length,
        motorola: layout.motorola,
        signed: layout.signed,
        factor,
        offset,
        min,
        max,
        unit: Text::copy_of(alloc, unit)?,
        receivers,
    };
    Ok((body, rest))
}

/// A target, a string and `;`.
#[tactic(auto, using(crate::proofs::Stepwise::comment_steps))]
pub fn read_comment(
    alloc: Global,
    tokens: Tokens<'_>,
    end: u32,
) -> Result<(Body, Tokens<'_>), TextFault>
    ensures { Gives (λ x. (x.0, x.1.now)) result (seen end rows.comment rows.comment_body tokens.now) }
{
    let (target, rest) = read_target(alloc, tokens, end)?;
    let (text, rest) = take_string(rest, end)?;
    let rest = take_mark(rest, b';', end)?;
    let text = Text::copy_of(alloc, text)?;
    Ok((Body::Comment { target, text }, rest))
}

/// The attribute's name, its value and `;`.
#[tactic(auto, using(crate::proofs::Stepwise::default_steps))]
pub fn read_default(
    alloc: Global,
    tokens: Tokens<'_>,
    end: u32,
) -> Result<(Body, Tokens<'_>), TextFault>
    ensures { Gives (λ x. (x.0, x.1.now)) result (seen end rows.default rows.default_body tokens.now) }
{
    let (name, rest) = take_string(tokens, end)?;
    let (value, rest) = read_default_value(alloc, rest, end)?;
    let rest = take_mark(rest, b';', end)?;
    let name = Text::copy_of(alloc, name)?;
    Ok((Body::Default { name, value }, rest))
}

/// The attribute's name, a target, the value and `;`.
#[tactic(auto, using(crate::proofs::Stepwise::attribute_steps))]
pub fn read_attribute(
    alloc: Global,
    tokens: Tokens<'_>,
    end: u32,
) -> Result<(Body, Tokens<'_>), TextFault>
    ensures { Gives (λ x. (x.0, x.1.now)) result (seen end rows.attribute rows.attribute_body tokens.now) }
{
    let (name, rest) = take_string(tokens, end)?;
    let (target, rest) = read_target(alloc, rest, end)?;
    let (value, rest) = read_attribute_value(alloc, rest, end)?;
    let rest = take_mark(rest, b';', end)?;
    let body = Body::Attribute {
        name: Text::copy_of(alloc, name)?,
        target,
        value,
    };
    Ok((body, rest))
}

/// A message's id, where a number follows.
fn read_choices_id(tokens: Tokens<'_>, end: u32) -> Result<(Option<u32>, Tokens<'_>), TextFault>
    ensures { Gives (λ x. (x.0, x.1.now)) result (seen end rows.choices_id parts.option_of tokens.now) }
{
    if is_next(Check::Number, tokens) {
        let (id, rest) = take_whole(tokens, u32::MAX, end)?;
        Ok((Some(id), rest))
    } else {
        Ok((None, tokens))
    }
}

/// An optional id, a name, pairs and `;`.
#[tactic(auto, using(crate::proofs::Stepwise::choices_steps))]
pub fn read_choices(
    alloc: Global,
    tokens: Tokens<'_>,
    end: u32,
) -> Result<(Body, Tokens<'_>), TextFault>
    ensures { Gives (λ x. (x.0, x.1.now)) result (seen end rows.choices rows.choices_body tokens.now) }
{
    let (id, rest) = read_choices_id(tokens, end)?;
    let (name, rest) = take_word(rest, end)?;
    let (pairs, rest) = read_pairs(alloc, rest, end)?;
    let rest = take_mark(rest, b';', end)?;
    let name = Text::copy_of(alloc, name)?;
    Ok((Body::Choices { id, name, pairs }, rest))
}

/// The id, the name, an optional `:`, a number up to 255 and `;`.
pub fn read_value_type(
    alloc: Global,
    tokens: Tokens<'_>,
    end: u32,
) -> Result<(Body, Tokens<'_>), TextFault>
    ensures { Gives (λ x. (x.0, x.1.now)) result (seen end rows.value_type rows.value_type_body tokens.now) }
{
    let (id, rest) = take_whole(tokens, u32::MAX, end)?;
    let (name, rest) = take_word(rest, end)?;
    let rest = if is_next(Check::Mark(b':'), rest) {
        take_mark(rest, b':', end)?
    } else {
        rest
    };
    let (number, rest) = take_whole(rest, 255, end)?;
    let rest = take_mark(rest, b';', end)?;
    let name = Text::copy_of(alloc, name)?;
    Ok((Body::ValueType { id, name, number }, rest))
}

/// The id, the name, the name of its selector, ranges and `;`.
#[tactic(auto, using(crate::proofs::Stepwise::ranges_row_steps))]
pub fn read_ranges_row(
    alloc: Global,
    tokens: Tokens<'_>,
    end: u32,
) -> Result<(Body, Tokens<'_>), TextFault>
    ensures { Gives (λ x. (x.0, x.1.now)) result (seen end rows.ranges rows.ranges_body tokens.now) }
{
    let (id, rest) = take_whole(tokens, u32::MAX, end)?;
    let (child, rest) = take_word(rest, end)?;
    let (selector, rest) = take_word(rest, end)?;
    let (ranges, rest) = read_ranges(alloc, rest, end)?;
    let rest = take_mark(rest, b';', end)?;
    let body = Body::Ranges {
        id,
        child: Text::copy_of(alloc, child)?,
        selector: Text::copy_of(alloc, selector)?,
        ranges,
    };
    Ok((body, rest))
}

/// All tokens up to and with the next `;`.
pub fn read_other(tokens: Tokens<'_>, end: u32) -> Result<Tokens<'_>, TextFault>
    ensures { Gives (λ x. (Body.Skipped, x.now)) result (seen end rows.other rows.nothing_kept tokens.now) }
{
    let rest = past_run(Check::UnlessMark(b';'), tokens);
    take_mark(rest, b';', end)
}
