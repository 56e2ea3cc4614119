//! Equal bodies of macros (6.10.3p1): the tokens are of equal kinds and values.
ghost use Rattle.std.specs.Prelude.{◌≡◌};
ghost use Rattle.c_text.specs.MacroDefinition as mean;
ghost use Rattle.c_pre.specs.Shown.{flats};

use c_text::{Constant, IntType, Spelled, Token, TokenKind};

pub fn same_body(first: &[Token], second: &[Token]) -> bool
    ensures { result ≡ mean.same_body (flats first.now) (flats second.now) }
{
    if first.len() != second.len() {
        return false;
    }
    for (at, token) in first.iter().enumerate() {
        if !same_kind(&token.kind, &second[at].kind) {
            return false;
        }
    }
    true
}

fn same_kind(a: &TokenKind, b: &TokenKind) -> bool
    ensures { result ≡ mean.same_kind a.now b.now }
{
    match (a, b) {
        (TokenKind::Word(a), TokenKind::Word(b)) => a.bytes() == b.bytes(),
        (TokenKind::Constant(a), TokenKind::Constant(b)) => same_constant(a, b),
        (TokenKind::Quoted(a), TokenKind::Quoted(b)) => a.bytes() == b.bytes(),
        (TokenKind::Mark(a), TokenKind::Mark(b)) => a.bytes() == b.bytes(),
        (TokenKind::TypeName(a), TokenKind::TypeName(b)) => same_spelled(*a, *b),
        (TokenKind::Null, TokenKind::Null) => true,
        (TokenKind::Memset, TokenKind::Memset) => true,
        _ => false,
    }
}

fn same_constant(a: &Constant, b: &Constant) -> bool
    ensures { result ≡ mean.same_constant a.now b.now }
{
    a.value == b.value && a.base == b.base && a.unsigned == b.unsigned && a.longs == b.longs
}

fn same_spelled(a: Spelled, b: Spelled) -> bool
    ensures { result ≡ mean.same_spelled a b }
{
    a == b
}
