//! Brackets, and what stands outside them.
ghost use Rattle.std.specs.Prelude.{◌≡◌, ◌+◌, ◌<◌, ◌≤◌, ◌^◌, length, IfSome};
ghost use Rattle.c_tree.specs.Brackets as spec;
ghost use Rattle.c_expression.specs.Stop.{stops};

use crate::operators::assignment;
use crate::symbols::mark;
use c_text::{Token, TokenKind};
use c_tree::{Bracket, Punctuator};

/// The brackets that a token opens.
pub fn opens(kind: &TokenKind) -> Option<Bracket>
    ensures { result ≡ spec.opens kind.now }
{
    match mark(kind) {
        Some(Punctuator::OpenParen) => Some(Bracket::Round),
        Some(Punctuator::OpenBracket) => Some(Bracket::Square),
        Some(Punctuator::OpenBrace) => Some(Bracket::Brace),
        _ => None,
    }
}

/// The brackets that a token closes.
pub fn closes(kind: &TokenKind) -> Option<Bracket>
    ensures { result ≡ spec.closes kind.now }
{
    match mark(kind) {
        Some(Punctuator::CloseParen) => Some(Bracket::Round),
        Some(Punctuator::CloseBracket) => Some(Bracket::Square),
        Some(Punctuator::CloseBrace) => Some(Bracket::Brace),
        _ => None,
    }
}

/// How many brackets are open behind a token that stands inside so many.
pub fn depth_after(kind: &TokenKind, depth: usize) -> usize
    requires { depth + 1 < 2 ^ 64 }
    ensures value { result ≡ spec.depth_after kind.now depth }
    ensures small { result ≤ depth + 1 }
{
    if opens(kind).is_some() {
        depth + 1
    } else if closes(kind).is_some() {
        depth.saturating_sub(1)
    } else {
        depth
    }
}

/// How many tokens stand before the one that closes the bracket that is open before them.
pub fn closing(tokens: &[Token]) -> Option<usize>
    ensures value { result ≡ spec.closing_from 0 1 tokens.now }
    ensures within { IfSome result (λ i. i < length tokens.now) }
{
    let mut depth = 1;
    for (i, token) in tokens.iter().enumerate() {
        depth = depth_after(&token.kind, depth);
        if depth == 0 {
            return Some(i);
        }
    }
    None
}

/// A token at which a part may end.
#[derive(Clone, Copy, Debug, PartialEq, Eq)]
pub enum Stop {
    Assignment,
    Colon,
    Comma,
    Semicolon,
}

impl Stop {
    /// Whether a token is one.
    pub fn is(self, kind: &TokenKind) -> bool
        ensures { result ≡ stops self kind.now }
    {
        match self {
            Stop::Assignment => assignment(kind).is_some(),
            Stop::Colon => matches!(mark(kind), Some(Punctuator::Colon)),
            Stop::Comma => matches!(mark(kind), Some(Punctuator::Comma)),
            Stop::Semicolon => matches!(mark(kind), Some(Punctuator::Semicolon)),
        }
    }
}

/// How many tokens stand before the first such token outside brackets.
pub fn first_outside(stop: Stop, tokens: &[Token]) -> Option<usize>
    ensures value { result ≡ spec.first_outside (stops stop) 0 0 tokens.now }
    ensures within { IfSome result (λ i. i < length tokens.now) }
{
    let mut depth = 0;
    for (i, token) in tokens.iter().enumerate() {
        if depth == 0 && stop.is(&token.kind) {
            return Some(i);
        }
        depth = depth_after(&token.kind, depth);
    }
    None
}
