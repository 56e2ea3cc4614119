//! Whether the brackets of a unit match.
ghost use Rattle.std.specs.Prelude.{◌≡◌, ◌+◌, ◌<◌, ◌≤◌, ◌^◌, length, [], IfOk, IfErr};
ghost use Rattle.c_text.specs.declared.refusal.CFault.TheVariants.{Memory};
ghost use Rattle.c_text.specs.Refusal.{Gives};
ghost use Rattle.c_tree.specs.Brackets as spec;
ghost use Rattle.c_parser.specs.Matching.{stack_of, unmatched, IsFound, IsWalked};

use c_expression::{closes, depth_after, opens};
use c_text::{CFault, CKind, Place, Token};
use c_tree::{Bracket, MOST_OPEN};
use std::alloc::Global;

/// A bracket that is open, behind so many tokens.
#[derive(Clone, Copy, Debug)]
struct Open {
    bracket: Bracket,
    at: usize,
    place: Place,
}

/// The place of a fault, behind so many tokens.
#[derive(Clone, Copy, Debug)]
struct Found {
    at: usize,
    kind: CKind,
    place: Place,
}

/// The first closing bracket that does not fit the innermost open one, else the first opening one
/// that is never closed.
fn mismatch(alloc: Global, tokens: &[Token]) -> Result<Option<Found>, CFault>
    ensures value { IfOk result (λ found. IsFound found (spec.mismatch 0 (spec.within []) tokens.now)) }
    ensures memory { IfErr result (λ e. e ≡ Memory) }
{
    let mut ones: Vec<Open> = Vec::new(alloc);
    for (at, token) in tokens.iter().enumerate() {
        let fault = walk(&mut ones, at, token)?;
        if fault.is_some() {
            return Ok(fault);
        }
    }
    Ok(outermost(ones.as_slice()))
}

/// Goes over one token, behind so many others, and shows a bracket that does not fit.
fn walk(ones: &mut Vec<Open>, at: usize, token: &Token) -> Result<Option<Found>, CFault>
    ensures value { IfOk result (λ found. IsWalked found (stack_of ones.new.items) (spec.walk_by (spec.opens token.now.kind) (spec.closes token.now.kind) at token.now.place (stack_of ones.old.items))) }
    ensures memory { IfErr result (λ e. e ≡ Memory) }
{
    let place = token.place;
    if let Some(bracket) = opens(&token.kind) {
        ones.push(Open { bracket, at, place })?;
        return Ok(None);
    }
    match closes(&token.kind) {
        Some(bracket) => Ok(close(ones, bracket, at, place)),
        None => Ok(None),
    }
}

/// Closes the innermost bracket, if that is of this kind, else shows the fault.
fn close(ones: &mut Vec<Open>, bracket: Bracket, at: usize, place: Place) -> Option<Found>
    ensures { IsWalked result (stack_of ones.new.items) (spec.close_by bracket at place (stack_of ones.old.items)) }
{
    match ones.pop() {
        Some(last) if same(last.bracket, bracket) => None,
        _ => Some(Found {
            at,
            kind: CKind::Syntax,
            place,
        }),
    }
}

fn same(left: Bracket, right: Bracket) -> bool
    ensures { result ≡ spec.same_bracket left right }
{
    matches!(
        (left, right),
        (Bracket::Round, Bracket::Round)
            | (Bracket::Square, Bracket::Square)
            | (Bracket::Brace, Bracket::Brace)
    )
}

fn outermost(ones: &[Open]) -> Option<Found>
    ensures { IsFound result (spec.outermost (stack_of ones.now)) }
{
    match ones {
        [] => None,
        [first, ..] => Some(Found {
            at: first.at,
            kind: CKind::Syntax,
            place: first.place,
        }),
    }
}

/// The first token with which too many brackets are open.
fn first_deep(tokens: &[Token]) -> Option<Found>
    ensures { IsFound result (spec.deep_from 0 0 tokens.now) }
{
    let mut depth = 0;
    for (at, token) in tokens.iter().enumerate() {
        depth = depth_after(&token.kind, depth);
        if depth > MOST_OPEN as usize {
            return Some(Found {
                at,
                kind: CKind::TooDeep,
                place: token.place,
            });
        }
    }
    None
}

/// That the brackets of the tokens match, else the one fault of the tokens.
#[tactic(auto, unfolding(c_tree::specs::Brackets::bracket_fault))]
pub fn matched(alloc: Global, tokens: &[Token]) -> Result<(), CFault>
    ensures { Gives (λ x. x) result (unmatched (spec.bracket_fault tokens.now)) }
{
    let Some(found) = mismatch(alloc, tokens)? else {
        return Ok(());
    };
    let Found { kind, place, .. } = match first_deep(tokens) {
        Some(deep) if deep.at < found.at => deep,
        _ => found,
    };
    Err(CFault::Fault { kind, place })
}
