//! Copies of tokens.
ghost use Rattle.std.specs.Prelude.{◌≡◌, IfOk};

use c_text::{Token, TokenKind};
use cg_out::{List, Memory, Text};
use std::alloc::Global;

pub fn copy_of_kind(alloc: Global, kind: &TokenKind) -> Result<TokenKind, Memory>
    ensures { IfOk result (λ k. k ≡ kind.now) }
{
    match kind {
        TokenKind::Word(text) => Ok(TokenKind::Word(Text::copy_of(alloc, text.bytes())?)),
        TokenKind::Constant(constant) => Ok(TokenKind::Constant(*constant)),
        TokenKind::Quoted(text) => Ok(TokenKind::Quoted(Text::copy_of(alloc, text.bytes())?)),
        TokenKind::Mark(text) => Ok(TokenKind::Mark(Text::copy_of(alloc, text.bytes())?)),
        TokenKind::TypeName(spelled) => Ok(TokenKind::TypeName(*spelled)),
        TokenKind::Null => Ok(TokenKind::Null),
        TokenKind::Memset => Ok(TokenKind::Memset),
    }
}

pub fn copy_of(alloc: Global, token: &Token) -> Result<Token, Memory>
    ensures { IfOk result (λ t. t ≡ token.now) }
{
    Ok(Token {
        kind: copy_of_kind(alloc, &token.kind)?,
        place: token.place,
        fresh: token.fresh,
    })
}

pub fn copy_of_all(alloc: Global, tokens: &[Token]) -> Result<List<Token>, Memory>
    ensures { IfOk result (λ ts. ts ≡ tokens.now) }
{
    let mut list = List::new(alloc);
    for token in tokens {
        list.push(copy_of(alloc, token)?)?;
    }
    Ok(list)
}
