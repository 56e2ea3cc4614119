//! The values of `case` labels: constants, with signs and brackets round them.
ghost use Rattle.std.specs.Prelude.{◌≡◌, ◌≤◌, length, drop, IfOk, IfNone, IfSome};
ghost use Rattle.c_text.specs.Refusal.{Gives};
ghost use Rattle.c_tree.specs.CaseValue as spec;
ghost use Rattle.c_parser.specs.Signs.{AreSigns, IsSignAt, NoSign};

use c_expression::{
    PrefixKind, PrefixOp, behind, closed, inside, is_round, sign, syntax, with_prefixes,
};
use c_text::{CFault, Place, Token, TokenKind};
use c_tree::{Expr, ExprKind};
use cg_out::{Boxed, Memory};
use std::alloc::Global;

/// The value that the tokens are; so many brackets may be open in it.
#[cycle(value)]
pub fn case_value(alloc: Global, tokens: &[Token], room: u32, after: Place) -> Result<Expr, CFault>
    ensures { Gives (λ e. e) result (spec.case_value room tokens.now after) }
{
    let (signs, count) = signs(alloc, tokens)?;
    let value = unsigned(alloc, behind(tokens, count), room, after)?;
    Ok(with_prefixes(alloc, signs, value)?)
}

/// The signs at the front, from the left, and how many they are.
fn signs(alloc: Global, tokens: &[Token]) -> Result<(Vec<PrefixOp>, usize), Memory>
    ensures are { IfOk result (λ r. AreSigns tokens.now r.1 r.0.items) }
    ensures all { IfOk result (λ r. NoSign (drop r.1 tokens.now)) }
    ensures within { IfOk result (λ r. r.1 ≤ length tokens.now) }
{
    let mut signs = Vec::new(alloc);
    let mut count = 0;
    while let Some(op) = sign_at(tokens, count) {
        signs.push(op)?;
        count += 1;
    }
    Ok((signs, count))
}

/// The sign at an index, if one stands there.
fn sign_at(tokens: &[Token], at: usize) -> Option<PrefixOp>
    ensures some { IfSome result (λ p. IsSignAt at tokens.now p) }
    ensures none { IfNone result (NoSign (drop at tokens.now)) }
{
    let token = tokens.get(at)?;
    let op = sign(&token.kind)?;
    Some(PrefixOp {
        place: token.place,
        kind: PrefixKind::Sign(op),
    })
}

/// A value without a sign, by its first token.
#[cycle(value)]
fn unsigned(alloc: Global, tokens: &[Token], room: u32, after: Place) -> Result<Expr, CFault>
    requires { NoSign tokens.now }
    ensures { Gives (λ e. e) result (spec.value_step spec.case_value room tokens.now after) }
{
    let [token, rest @ ..] = tokens else {
        return Err(syntax(after));
    };
    let place = token.place;
    match &token.kind {
        TokenKind::Constant(constant) if rest.is_empty() => Ok(Expr {
            place,
            kind: ExprKind::Constant(*constant),
        }),
        TokenKind::Mark(_) if is_round(&token.kind) => {
            let Some((inner, close)) = closed(rest) else {
                return Err(syntax(place));
            };
            let inner = case_value(alloc, inner, inside(room, place)?, close)?;
            Ok(Expr {
                place,
                kind: ExprKind::Bracket(Boxed::new(alloc, inner)?),
            })
        }
        _ => Err(syntax(place)),
    }
}
