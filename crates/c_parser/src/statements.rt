//! Statements (ISO/IEC 9899:1999, 6.8).
ghost use Rattle.std.specs.Prelude.{◌≡◌, ◌+◌, ◌<◌, ◌≤◌, ◌∷◌, length, drop, IfOk, IfSome};
ghost use Rattle.c_text.specs.Refusal.{Gives};
ghost use Rattle.c_tree.specs.Brackets as brackets;
ghost use Rattle.c_tree.specs.Sequence.{all_read};
ghost use Rattle.c_tree.specs.StatementCut as spec;
ghost use Rattle.c_parser.specs.Label.{IsLabel};
ghost use Rattle.c_parser.specs.Pending.{plain_step};
ghost use Rattle.c_tree.specs.Symbol.{is_colon, is_semicolon};

use crate::case_value::case_value;
use crate::pending::{ascend, descend};
use crate::simple::simple;
use c_expression::{
    Stop, behind, closing, cut, first_outside, inside, is_round, is_type_word, keyword, mark,
    opens, syntax,
};
use c_text::{CFault, Place, Token};
use c_tree::{Bracket, Keyword, Punctuator, Stmt, StmtKind, SwitchPart};
use cg_out::List;
use std::alloc::Global;

/// The statement that the tokens begin with, and how many of its tokens follow the first. Whether
/// a `break` may stand there, how many brackets may be open in it, and the place behind all the
/// tokens.
#[cycle(statement)]
fn statement(
    alloc: Global,
    tokens: &[Token],
    may_break: bool,
    room: u32,
    after: Place,
) -> Result<(Stmt, usize), CFault>
    ensures value { Gives (λ s. s) result (spec.statement_of may_break room tokens.now after) }
    ensures within { IfOk result (λ s. s.1 < length tokens.now) }
{
    let mut pending = Vec::new(alloc);
    let mut at = 0;
    loop {
        let front = descend(alloc, &mut pending, tokens, at, room, after)?;
        let left = behind(tokens, front);
        let (made, more) = plain_statement(alloc, left, may_break, room, after)?;
        let end = front + more;
        match ascend(alloc, &mut pending, made, behind(tokens, end + 1))? {
            Some(whole) => return Ok((whole, end)),
            None => at = end + 2,
        }
    }
}

/// A statement that begins with no `if`, by its first token.
#[cycle(statement)]
fn plain_statement(
    alloc: Global,
    tokens: &[Token],
    may_break: bool,
    room: u32,
    after: Place,
) -> Result<(Stmt, usize), CFault>
    ensures value { Gives (λ s. s) result (plain_step spec.statement_of may_break room tokens.now after) }
    ensures within { IfOk result (λ s. s.1 < length tokens.now) }
{
    let [first, rest @ ..] = tokens else {
        return Err(syntax(after));
    };
    let place = first.place;
    if matches!(keyword(&first.kind), Some(Keyword::Switch)) {
        return switch_statement(alloc, place, rest, room, after);
    }
    if matches!(opens(&first.kind), Some(Bracket::Brace)) {
        let Some(end) = closing(rest) else {
            return Err(syntax(place));
        };
        let inner = &rest[..end];
        let list = statements(
            alloc,
            inner,
            may_break,
            inside(room, place)?,
            rest[end].place,
        )?;
        return Ok((
            Stmt {
                place,
                kind: StmtKind::Block(list),
            },
            end + 1,
        ));
    }
    unless_empty(alloc, first, rest, tokens, may_break, room, after)
}

/// A statement that ends with the first semicolon outside brackets, or is one.
fn unless_empty(
    alloc: Global,
    first: &Token,
    rest: &[Token],
    tokens: &[Token],
    may_break: bool,
    room: u32,
    after: Place,
) -> Result<(Stmt, usize), CFault>
    requires { tokens.now ≡ first.now ∷ rest.now }
    ensures value { Gives (λ s. s) result (spec.unless_empty (is_semicolon first.now.kind) may_break room first.now rest.now after) }
    ensures within { IfOk result (λ s. s.1 < length tokens.now) }
{
    if matches!(mark(&first.kind), Some(Punctuator::Semicolon)) {
        return Ok((
            Stmt {
                place: first.place,
                kind: StmtKind::Empty,
            },
            0,
        ));
    }
    let Some(end) = first_outside(Stop::Semicolon, tokens) else {
        return Err(syntax(first.place));
    };
    let made = simple(alloc, &tokens[..end], may_break, room, tokens[end].place)?;
    Ok((made, end))
}

/// All statements that the tokens are, which stand before a token with this place.
#[cycle(statement)]
pub fn statements(
    alloc: Global,
    tokens: &[Token],
    may_break: bool,
    room: u32,
    after: Place,
) -> Result<List<Stmt>, CFault>
    ensures { Gives (λ ss. ss) result (all_read (spec.each spec.statement_of may_break room after) 0 tokens.now) }
{
    let mut list = List::new(alloc);
    let mut left = tokens;
    while let [_, ..] = left {
        let (made, more) = statement(alloc, left, may_break, room, after)?;
        list.push(made)?;
        left = behind(left, more + 1);
    }
    Ok(list)
}

/// From the tokens behind the `switch`.
#[cycle(statement)]
fn switch_statement(
    alloc: Global,
    place: Place,
    tokens: &[Token],
    room: u32,
    after: Place,
) -> Result<(Stmt, usize), CFault>
    ensures value { Gives (λ s. s) result (spec.switch_open spec.statement_of room place tokens.now after) }
    ensures within { IfOk result (λ s. s.1 ≤ length tokens.now) }
{
    let [open, rest @ ..] = tokens else {
        return Err(syntax(place));
    };
    if !is_round(&open.kind) {
        return Err(syntax(place));
    }
    let Some(end) = closing(rest) else {
        return Err(syntax(place));
    };
    let [brace, block @ ..] = behind(rest, end + 1) else {
        return Err(syntax(place));
    };
    if !matches!(opens(&brace.kind), Some(Bracket::Brace)) {
        return Err(syntax(place));
    }
    let value = cut(
        alloc,
        &rest[..end],
        inside(room, open.place)?,
        rest[end].place,
    )?;
    let Some(close) = closing(block) else {
        return Err(syntax(place));
    };
    let inner = &block[..close];
    let parts = switch_parts(alloc, inner, inside(room, brace.place)?, block[close].place)?;
    Ok((
        Stmt {
            place,
            kind: StmtKind::Switch { value, parts },
        },
        end + 3 + close + 1,
    ))
}

/// All labels and statements at a switch's own level.
#[cycle(statement)]
fn switch_parts(
    alloc: Global,
    tokens: &[Token],
    room: u32,
    after: Place,
) -> Result<List<SwitchPart>, CFault>
    ensures { Gives (λ ps. ps) result (all_read (spec.switch_part spec.statement_of room after) 0 tokens.now) }
{
    let mut parts = List::new(alloc);
    let mut left = tokens;
    while let [first, rest @ ..] = left {
        if let Some((label, more)) = label_of(alloc, first, rest, room, after)? {
            parts.push(label)?;
            left = behind(left, more + 1);
        } else {
            let (made, more) = statement(alloc, left, true, room, after)?;
            parts.push(SwitchPart::Statement(made))?;
            left = behind(left, more + 1);
        }
    }
    Ok(parts)
}

/// The label that the tokens begin with, from its first token and those behind it; none where a
/// statement is to stand there.
fn label_of(
    alloc: Global,
    first: &Token,
    rest: &[Token],
    room: u32,
    after: Place,
) -> Result<Option<(SwitchPart, usize)>, CFault>
    ensures value { IsLabel result room after first.now rest.now }
    ensures within { IfOk result (λ found. IfSome found (λ p. p.1 ≤ length rest.now)) }
{
    let place = first.place;
    match keyword(&first.kind) {
        Some(Keyword::Case) => Ok(Some(case_label(alloc, place, rest, room, after)?)),
        Some(Keyword::Default) => Ok(Some(default_label(place, rest)?)),
        _ if is_type_word(&first.kind) => Err(syntax(place)),
        _ => Ok(None),
    }
}

/// From the tokens behind `case`.
fn case_label(
    alloc: Global,
    place: Place,
    tokens: &[Token],
    room: u32,
    after: Place,
) -> Result<(SwitchPart, usize), CFault>
    ensures value { Gives (λ p. p) result (spec.case_at room place (brackets.first_outside is_colon 0 0 tokens.now) tokens.now after) }
    ensures within { IfOk result (λ p. p.1 ≤ length tokens.now) }
{
    let Some(end) = first_outside(Stop::Colon, tokens) else {
        return Err(syntax(place));
    };
    let value = case_value(alloc, &tokens[..end], room, tokens[end].place)?;
    Ok((
        SwitchPart::Label {
            value: Some(value),
            place,
        },
        end + 1,
    ))
}

/// From the tokens behind `default`.
fn default_label(place: Place, tokens: &[Token]) -> Result<(SwitchPart, usize), CFault>
    ensures value { Gives (λ p. p) result (spec.default_at place tokens.now) }
    ensures within { IfOk result (λ p. p.1 ≤ length tokens.now) }
{
    match tokens {
        [colon, ..] if matches!(mark(&colon.kind), Some(Punctuator::Colon)) => {
            Ok((SwitchPart::Label { value: None, place }, 1))
        }
        _ => Err(syntax(place)),
    }
}
