//! The `if`s of a statement (ISO/IEC 9899:1999, 6.8.4.1), which wait in a stack for their branches:
//! neither an `if` in an `if` nor an `else if` takes a call of its own.
ghost use Rattle.std.specs.Prelude.{◌≡◌, ◌≤◌, length, drop, IfOk, IfNone, IfSome};
ghost use Rattle.c_tree.specs.declared.statement.StmtKind.TheVariants as k;
ghost use Rattle.c_tree.specs.StatementCut as spec;
ghost use Rattle.c_parser.specs.Pending.{IsIf, IsPlain, IsHead, has_else, Joins, IsWithin, Descends, Ascends};

use c_expression::{behind, closing, cut, inside, is_round, keyword, syntax};
use c_text::{CFault, Place, Token};
use c_tree::{Expr, Keyword, Stmt, StmtKind};
use cg_out::{Boxed, Memory};
use std::alloc::Global;

/// An `if` whose branch is being read.
#[derive(Drop)]
pub struct Pending {
    place: Place,
    condition: Expr,
    /// The first branch, where the other one is being read.
    first: Option<Boxed<Stmt>>,
}

/// Goes behind the heads of all `if`s in a row from an index on, each of which then waits for its
/// first branch: the index behind them, where no `if` stands. The fault of the first head that is
/// none; `after` is the place behind all the tokens.
pub fn descend(
    alloc: Global,
    pending: &mut Vec<Pending>,
    tokens: &[Token],
    at: usize,
    room: u32,
    after: Place,
) -> Result<usize, CFault>
    requires { at ≤ length tokens.now }
    ensures value { Descends result pending.old.items pending.new.items room tokens.now at after }
    ensures within { IfOk result (λ n. (at ≤ n) × (n ≤ length tokens.now)) }
    ensures plain { IfOk result (λ n. IsPlain (drop n tokens.now)) }
{
    let mut at = at;
    while let Some((place, rest)) = behind_if(behind(tokens, at)) {
        let (condition, count) = head(alloc, place, rest, room, after)?;
        pending.push(Pending {
            place,
            condition,
            first: None,
        })?;
        at = at + 1 + count;
    }
    Ok(at)
}

/// The place of the `if` at the front and the tokens behind it, if one stands there.
fn behind_if(tokens: &[Token]) -> Option<(Place, &[Token])>
    ensures some { IfSome result (λ i. IsIf i.0 i.1.now tokens.now) }
    ensures none { IfNone result (IsPlain tokens.now) }
    ensures rest { IfSome result (λ i. (1 ≤ length tokens.now) × (i.1.now ≡ drop 1 tokens.now)) }
{
    let [first, rest @ ..] = tokens else {
        return None;
    };
    if matches!(keyword(&first.kind), Some(Keyword::If)) {
        Some((first.place, rest))
    } else {
        None
    }
}

/// The condition of an `if` and how many tokens it is with its brackets, from those behind the `if`.
fn head(
    alloc: Global,
    place: Place,
    tokens: &[Token],
    room: u32,
    after: Place,
) -> Result<(Expr, usize), CFault>
    ensures value { IsHead result room place tokens.now after }
    ensures within { IfOk result (λ h. h.1 ≤ length tokens.now) }
{
    let [open, rest @ ..] = tokens else {
        return Err(syntax(place));
    };
    if !is_round(&open.kind) {
        return Err(syntax(place));
    }
    let Some(end) = closing(rest) else {
        return Err(syntax(place));
    };
    let room = inside(room, open.place)?;
    let condition = cut(alloc, &rest[..end], room, rest[end].place)?;
    Ok((condition, end + 2))
}

/// What a statement completes, behind which these tokens stand: the whole, unless an `if` that
/// waits for it has an `else` there, which then waits for its other branch.
pub fn ascend(
    alloc: Global,
    pending: &mut Vec<Pending>,
    made: Stmt,
    rest: &[Token],
) -> Result<Option<Stmt>, Memory>
    ensures value { IfOk result (λ whole. Ascends whole pending.old.items pending.new.items made rest.now) }
    ensures within { IfOk result (λ whole. IfNone whole (1 ≤ length rest.now)) }
{
    let mut made = made;
    while let Some(last) = pending.pop() {
        match join(alloc, last, made, rest)? {
            Joined::Whole(stmt) => made = stmt,
            Joined::Waits(last) => {
                pending.push(last)?;
                return Ok(None);
            }
        }
    }
    Ok(Some(made))
}

/// An `if` with one more branch.
#[derive(Drop)]
enum Joined {
    Whole(Stmt),
    /// For its other branch, behind an `else`.
    Waits(Pending),
}

/// An `if` with the branch for which it waits, behind which these tokens stand.
fn join(alloc: Global, last: Pending, made: Stmt, rest: &[Token]) -> Result<Joined, Memory>
    ensures value { IfOk result (λ joined. Joins joined last made rest.now) }
    ensures within { IfOk result (λ joined. IsWithin joined rest.now) }
{
    let made = Boxed::new(alloc, made)?;
    let Pending {
        place,
        condition,
        first,
    } = last;
    match first {
        Some(first) => Ok(Joined::Whole(if_of(place, condition, first, Some(made)))),
        None if is_else(rest) => Ok(Joined::Waits(Pending {
            place,
            condition,
            first: Some(made),
        })),
        None => Ok(Joined::Whole(if_of(place, condition, made, None))),
    }
}

/// Whether an `else` stands at the front.
fn is_else(tokens: &[Token]) -> bool
    ensures { result ≡ has_else tokens.now }
{
    match tokens {
        [first, ..] => matches!(keyword(&first.kind), Some(Keyword::Else)),
        [] => false,
    }
}

fn if_of(place: Place, condition: Expr, yes: Boxed<Stmt>, no: Option<Boxed<Stmt>>) -> Stmt
    ensures { result ≡ spec.stmt place (k.If condition yes no) }
{
    Stmt {
        place,
        kind: StmtKind::If { condition, yes, no },
    }
}
