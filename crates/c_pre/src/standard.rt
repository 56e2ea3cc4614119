//! The standard headers: how they are named, and what their names become.
ghost use Rattle.std.specs.Prelude.{◌≡◌, IfOk, map};
ghost use Rattle.std.specs.Option.{option_map};
ghost use Rattle.c_text.specs.StandardHeader as mean;
ghost use Rattle.cg_out.specs.Words as words;
ghost use Rattle.c_pre.specs.Shown.{header_shown, kinds};
ghost use Rattle.c_pre.specs.Run as run;

use crate::line::Header;
use c_text::{Constant, Spelled, Token, TokenKind};
use cg_out::{Memory, Text};
use std::alloc::Global;

pub fn is_word(kind: &TokenKind, word: &[u8]) -> bool
    ensures { result ≡ mean.is_word word.now kind.now }
{
    match kind {
        TokenKind::Word(name) => name.bytes() == word,
        _ => false,
    }
}

pub fn is_mark(kind: &TokenKind, mark: &[u8]) -> bool
    ensures { result ≡ mean.is_mark mark.now kind.now }
{
    match kind {
        TokenKind::Mark(spelling) => spelling.bytes() == mark,
        _ => false,
    }
}

/// Whether these are the word, a point and `h`.
fn is_header(tokens: &[Token], word: &[u8]) -> bool
    ensures { result ≡ mean.is_header word.now (kinds tokens.now) }
{
    match tokens {
        [name, point, h] => {
            is_word(&name.kind, word) && is_mark(&point.kind, b".") && is_word(&h.kind, b"h")
        }
        _ => false,
    }
}

/// The header with the name that these tokens spell.
#[tactic(auto, unfolding(c_text::specs::StandardHeader::header_of))]
pub fn header_of(tokens: &[Token]) -> Option<Header>
    ensures { option_map header_shown result ≡ mean.header_of (kinds tokens.now) }
{
    if is_header(tokens, b"stdbool") {
        Some(Header::StdBool)
    } else if is_header(tokens, b"stddef") {
        Some(Header::StdDef)
    } else if is_header(tokens, b"stdint") {
        Some(Header::StdInt)
    } else if is_header(tokens, b"string") {
        Some(Header::StringH)
    } else {
        None
    }
}

/// What the name becomes behind the first of these headers that gives it.
pub fn kind_among(
    alloc: Global,
    headers: &[Header],
    name: &[u8],
) -> Result<Option<TokenKind>, Memory>
    ensures { IfOk result (λ k. k ≡ run.kind_among (map header_shown headers.now) name.now) }
{
    for header in headers {
        if let Some(kind) = kind_in(alloc, *header, name)? {
            return Ok(Some(kind));
        }
    }
    Ok(None)
}

#[tactic(auto, unfolding(c_text::specs::StandardHeader::kind_in))]
fn kind_in(alloc: Global, header: Header, name: &[u8]) -> Result<Option<TokenKind>, Memory>
    ensures { IfOk result (λ k. k ≡ mean.kind_in (header_shown header) name.now) }
{
    match header {
        Header::StdBool => kind_in_stdbool(alloc, name),
        Header::StdDef => Ok(kind_in_stddef(name)),
        Header::StdInt => Ok(kind_in_stdint(name)),
        Header::StringH => Ok(kind_in_string(name)),
    }
}

fn kind_in_stdbool(alloc: Global, name: &[u8]) -> Result<Option<TokenKind>, Memory>
    ensures { IfOk result (λ k. k ≡ words.look_up name.now (mean.names_of mean.stdbool_h)) }
{
    if b"bool".as_slice() == name {
        Ok(Some(TokenKind::Word(Text::copy_of(alloc, b"_Bool")?)))
    } else if b"true".as_slice() == name {
        Ok(Some(truth(1)))
    } else if b"false".as_slice() == name {
        Ok(Some(truth(0)))
    } else {
        Ok(None)
    }
}

fn truth(value: u64) -> TokenKind
    ensures { result ≡ mean.truth value }
{
    TokenKind::Constant(Constant {
        value,
        base: 10,
        unsigned: false,
        longs: 0,
    })
}

fn kind_in_stddef(name: &[u8]) -> Option<TokenKind>
    ensures { result ≡ words.look_up name.now (mean.names_of mean.stddef_h) }
{
    if b"size_t".as_slice() == name {
        Some(TokenKind::TypeName(Spelled::Size))
    } else if b"NULL".as_slice() == name {
        Some(TokenKind::Null)
    } else {
        None
    }
}

fn kind_in_stdint(name: &[u8]) -> Option<TokenKind>
    ensures { result ≡ words.look_up name.now (mean.names_of mean.stdint_h) }
{
    if b"int8_t".as_slice() == name {
        Some(exact(8, true))
    } else if b"int16_t".as_slice() == name {
        Some(exact(16, true))
    } else if b"int32_t".as_slice() == name {
        Some(exact(32, true))
    } else if b"int64_t".as_slice() == name {
        Some(exact(64, true))
    } else if b"uint8_t".as_slice() == name {
        Some(exact(8, false))
    } else if b"uint16_t".as_slice() == name {
        Some(exact(16, false))
    } else if b"uint32_t".as_slice() == name {
        Some(exact(32, false))
    } else if b"uint64_t".as_slice() == name {
        Some(exact(64, false))
    } else {
        None
    }
}

fn exact(width: u32, signed: bool) -> TokenKind
    ensures { result ≡ TokenKind.TypeName (Spelled.Exact width signed) }
{
    TokenKind::TypeName(Spelled::Exact { width, signed })
}

fn kind_in_string(name: &[u8]) -> Option<TokenKind>
    ensures { result ≡ words.look_up name.now (mean.names_of mean.string_h) }
{
    if b"size_t".as_slice() == name {
        Some(TokenKind::TypeName(Spelled::Size))
    } else if b"NULL".as_slice() == name {
        Some(TokenKind::Null)
    } else if b"memset".as_slice() == name {
        Some(TokenKind::Memset)
    } else {
        None
    }
}
