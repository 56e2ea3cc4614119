//! The operators between the operands of an expression.
ghost use Rattle.std.specs.Prelude.{◌≡◌, ◌+◌, ◌<◌, ◌≤◌, ◌^◌, [], ◌∷◌, length, drop, IfSome, IfNone, ℕ};
ghost use Rattle.c_expression.specs.At.{IsInfixAt, Stops};
ghost use Rattle.c_tree.specs.ExpressionCut as spec;
ghost use Rattle.c_expression.specs.Before.{Tokens, before_of, IsFrom};
ghost use Rattle.c_expression.specs.Joint.{cuts_here, IsJointless, IsFirstJoint};

use crate::brackets::depth_after;
use crate::operators::operator;
use crate::symbols::{mark, name};
use crate::type_names::{is_type_word, spelled};
use c_text::{Place, Token, TokenKind};
use c_tree::{BinaryOp, Punctuator};

/// What stands before a token.
#[derive(Clone, Copy, Debug, PartialEq, Eq)]
pub enum Before {
    /// Nothing, or what an operand is to follow.
    Start,
    /// An opening bracket `(` and, from this index on, only tokens that types may have.
    Bracket(usize),
    /// An operand.
    Operand,
}

/// What stands behind the token at an index.
fn behind(tokens: &[Token], index: usize, token: &Token, before: Before) -> Before
    requires at { drop index tokens.now ≡ token.now ∷ drop (index + 1) tokens.now }
    requires within { index < length tokens.now }
    requires from { IsFrom index before }
    ensures value { before_of tokens.now (index + 1) result ≡ spec.behind token.now.kind (before_of tokens.now index before) }
    ensures from { IsFrom (index + 1) result }
{
    match &token.kind {
        TokenKind::Constant(_) | TokenKind::Null | TokenKind::Memset => Before::Operand,
        TokenKind::Word(_) if name(&token.kind).is_some() => Before::Operand,
        TokenKind::Mark(_) => behind_mark(tokens, index, mark(&token.kind), before),
        kind if is_type_word(kind) => behind_type_word(tokens, index, token, before),
        _ => Before::Start,
    }
}

fn behind_type_word(tokens: &[Token], index: usize, token: &Token, before: Before) -> Before
    requires at { drop index tokens.now ≡ token.now ∷ drop (index + 1) tokens.now }
    requires from { IsFrom index before }
    ensures value { before_of tokens.now (index + 1) result ≡ spec.type_behind token.now.kind (before_of tokens.now index before) }
    ensures from { IsFrom (index + 1) result }
{
    match before {
        Before::Bracket(from) => Before::Bracket(from),
        _ => Before::Start,
    }
}

fn behind_mark(tokens: &[Token], index: usize, mark: Option<Punctuator>, before: Before) -> Before
    requires within { index < length tokens.now }
    requires from { IsFrom index before }
    ensures value { before_of tokens.now (index + 1) result ≡ spec.mark_behind mark (before_of tokens.now index before) }
    ensures from { IsFrom (index + 1) result }
{
    match mark {
        Some(Punctuator::OpenParen) => Before::Bracket(index + 1),
        Some(Punctuator::CloseParen) => behind_round(tokens, index, before),
        Some(Punctuator::CloseBracket) => Before::Operand,
        _ => Before::Start,
    }
}

/// Brackets round a type end no operand.
fn behind_round(tokens: &[Token], index: usize, before: Before) -> Before
    requires within { index < length tokens.now }
    requires from { IsFrom index before }
    ensures value { before_of tokens.now (index + 1) result ≡ spec.round_closed (before_of tokens.now index before) }
    ensures from { IsFrom (index + 1) result }
{
    match before {
        Before::Bracket(from) if spelled(&tokens[from..index]).is_some() => Before::Start,
        _ => Before::Operand,
    }
}

/// Whether an operator stands there between two operands, outside brackets.
fn is_joint(depth: usize, before: Before, token: &Token) -> bool
    ensures { (ts : Tokens) (index : ℕ) → result ≡ cuts_here depth (before_of ts index before) token.now }
{
    depth == 0 && before == Before::Operand && operator(&token.kind).is_some()
}

/// How many tokens stand before the first operator between two operands, outside brackets.
pub fn first_joint(tokens: &[Token]) -> Option<usize>
    ensures none { IfNone result (IsJointless tokens.now) }
    ensures some { IfSome result (λ i. IsFirstJoint i tokens.now) }
    ensures within { IfSome result (λ i. i < length tokens.now) }
{
    let mut depth = 0;
    let mut before = Before::Start;
    for (i, token) in tokens.iter().enumerate() {
        if is_joint(depth, before, token) {
            return Some(i);
        }
        depth = depth_after(&token.kind, depth);
        before = behind(tokens, i, token, before);
    }
    None
}

/// An operator between two operands.
#[derive(Clone, Copy)]
pub struct Infix {
    pub level: u32,
    pub op: BinaryOp,
    pub place: Place,
}

/// The operator at an index, if there is one of this level or a tighter one.
pub fn infix_at(tokens: &[Token], at: usize, least: u32) -> Option<Infix>
    ensures some { IfSome result (λ i. IsInfixAt at tokens.now i.level i.op i.place) }
    ensures within { IfSome result (λ i. (at < length tokens.now) × (least ≤ i.level) × (i.level < 9)) }
    ensures none { IfNone result (Stops least (drop at tokens.now)) }
{
    let token = tokens.get(at)?;
    let (level, op) = operator(&token.kind)?;
    if level < least {
        None
    } else {
        let place = token.place;
        Some(Infix { level, op, place })
    }
}
