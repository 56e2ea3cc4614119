//! What stands between commas.
ghost use Rattle.std.specs.Prelude.{◌≡◌, ◌+◌, ◌≤◌, ◌<◌, ◌∷◌, length, drop};
ghost use Rattle.c_tree.specs.ExpressionCut.{parts};
ghost use Rattle.c_expression.specs.Parts.{parts_left, count_left};

use crate::brackets::{Stop, first_outside};
use c_text::{Place, Token};

/// The tokens before the first comma outside brackets.
#[derive(Drop)]
pub struct FirstPart<'a> {
    pub tokens: &'a [Token],
    /// The place of the token behind them.
    pub after: Place,
    /// The tokens behind the comma, if there is one.
    pub rest: Option<&'a [Token]>,
}

/// The first part of tokens, behind all of which one stands at this place.
pub fn first_part(tokens: &[Token], after: Place) -> FirstPart<'_>
    ensures are { parts after 0 tokens.now ≡ (result.tokens.now, result.after) ∷ parts_left after result.rest }
    ensures within { length result.tokens.now ≤ length tokens.now }
    ensures fewer { count_left result.rest < length tokens.now + 1 }
{
    match first_outside(Stop::Comma, tokens) {
        None => FirstPart {
            tokens,
            after,
            rest: None,
        },
        Some(i) => FirstPart {
            tokens: &tokens[..i],
            after: tokens[i].place,
            rest: Some(behind(tokens, i + 1)),
        },
    }
}

/// The tokens from this index on.
pub fn behind(tokens: &[Token], at: usize) -> &[Token]
    requires { at ≤ length tokens.now }
    ensures { result.now ≡ drop at tokens.now }
{
    &tokens[at..]
}
