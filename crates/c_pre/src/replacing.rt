//! Names that are replaced (6.10.3.1).
ghost use Rattle.std.specs.Prelude.{◌≡◌, ◌++◌, map, Some, OnOk};
ghost use Rattle.c_text.specs.SeenToken.{token_of};
ghost use Rattle.c_text.specs.Directive.{word_of};
ghost use Rattle.c_text.specs.Preprocessing.{body_for};
ghost use Rattle.c_pre.specs.Shown.{flat, flats, header_shown};
ghost use Rattle.c_pre.specs.Run as run;

use crate::copying::{copy_of, copy_of_kind};
use crate::line::Header;
use crate::macros::Macros;
use crate::standard::kind_among;
use c_text::{Token, TokenKind};
use cg_out::{List, Memory};
use std::alloc::Global;

/// Writes tokens, in which the macros and the names that headers give are replaced.
pub fn write(
    alloc: Global,
    out: &mut List<Token>,
    macros: &Macros,
    headers: &[Header],
    tokens: &[Token],
) -> Result<(), Memory>
    ensures { OnOk result (out.new ≡ out.old ++ run.written macros.now (map header_shown headers.now) (flats tokens.now)) }
{
    for token in tokens {
        write_token(alloc, out, macros, headers, token)?;
    }
    Ok(())
}

fn write_token(
    alloc: Global,
    out: &mut List<Token>,
    macros: &Macros,
    headers: &[Header],
    token: &Token,
) -> Result<(), Memory>
    ensures { OnOk result (out.new ≡ out.old ++ map token_of (run.written_word macros.now (map header_shown headers.now) (flat token.now) (word_of token.now.kind))) }
{
    match &token.kind {
        TokenKind::Word(name) => write_word(alloc, out, macros, headers, token, name.bytes()),
        _ => out.push(copy_of(alloc, token)?),
    }
}

fn write_word(
    alloc: Global,
    out: &mut List<Token>,
    macros: &Macros,
    headers: &[Header],
    token: &Token,
    name: &[u8],
) -> Result<(), Memory>
    ensures { OnOk result (out.new ≡ out.old ++ map token_of (run.written_word macros.now (map header_shown headers.now) (flat token.now) (Some name.now))) }
{
    if let Some(body) = macros.body_of(name) {
        return write_body(alloc, out, token, body);
    }
    match kind_among(alloc, headers, name)? {
        Some(kind) => out.push(Token {
            kind,
            place: token.place,
            fresh: token.fresh,
        }),
        None => out.push(copy_of(alloc, token)?),
    }
}

/// Writes the body in the place of the name; its first token is fresh where the name was.
fn write_body(
    alloc: Global,
    out: &mut List<Token>,
    name: &Token,
    body: &[Token],
) -> Result<(), Memory>
    ensures { OnOk result (out.new ≡ out.old ++ map token_of (body_for (flat name.now) (flats body.now))) }
{
    let mut fresh = name.fresh;
    for token in body {
        out.push(Token {
            kind: copy_of_kind(alloc, &token.kind)?,
            place: name.place,
            fresh,
        })?;
        fresh = false;
    }
    Ok(())
}
