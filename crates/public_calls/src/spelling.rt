//! Tokens and faults of C as a person reads them.
use c_lexer::{SOURCE_LIMIT, tokens};
use c_mean::{CFault, Macro, Spelled, Token, TokenKind};
use cg_out::Memory;
use std::alloc::Global;

/// The tokens of a text that is far shorter than the limit.
pub(super) fn read(alloc: Global, text: &str, header: bool) -> Result<Vec<Token>, CFault> {
    if text.len() > SOURCE_LIMIT {
        return Err(CFault::Memory);
    }
    tokens(alloc, text.as_bytes(), header)
}

/// Writes tokens, each behind a line end where it is fresh, and else behind a blank.
pub(super) fn write_tokens(
    alloc: Global,
    out: &mut Vec<u8>,
    tokens: &[Token],
) -> Result<(), Memory> {
    for token in tokens {
        out.push(if token.fresh { b'\n' } else { b' ' })?;
        write_kind(alloc, out, &token.kind)?;
    }
    Ok(())
}

/// Writes a token; the three kinds that names have behind their header stand in angle brackets.
fn write_kind(alloc: Global, out: &mut Vec<u8>, kind: &TokenKind) -> Result<(), Memory> {
    match kind {
        TokenKind::Word(text) | TokenKind::Mark(text) => out.extend_from_slice(text.bytes())?,
        TokenKind::Quoted(content) => {
            out.push(b'"')?;
            out.extend_from_slice(content.bytes())?;
            out.push(b'"')?;
        }
        // The value, the base where it is not 10, and the suffix.
        TokenKind::Constant(constant) => {
            out.extend_from_slice(format!(in alloc; "{}", constant.value)?.as_bytes())?;
            if constant.base != 10 {
                out.extend_from_slice(format!(in alloc; ":{}", constant.base)?.as_bytes())?;
            }
            if constant.unsigned {
                out.push(b'u')?;
            }
            for _ in 0..constant.longs {
                out.push(b'l')?;
            }
        }
        TokenKind::TypeName(Spelled::Exact { width, signed }) => {
            let spelled = format!(in alloc; "<{width} signed={signed}>")?;
            out.extend_from_slice(spelled.as_bytes())?;
        }
        TokenKind::TypeName(_) => out.extend_from_slice(b"<size>")?,
        TokenKind::Null => out.extend_from_slice(b"<null>")?,
        TokenKind::Memset => out.extend_from_slice(b"<memset>")?,
    }
    Ok(())
}

/// Writes macros, each with `##` before its name.
pub(super) fn write_macros(
    alloc: Global,
    out: &mut Vec<u8>,
    macros: &[Macro],
) -> Result<(), Memory> {
    for entry in macros {
        out.extend_from_slice(b" ##")?;
        out.extend_from_slice(entry.name.bytes())?;
        write_tokens(alloc, out, entry.body.items())?;
    }
    Ok(())
}

/// Writes where tokens stand, each with its line and its bytes.
pub(super) fn write_places(
    alloc: Global,
    out: &mut Vec<u8>,
    tokens: &[Token],
) -> Result<(), Memory> {
    for token in tokens {
        let place = token.place;
        let spelled = format!(in alloc; " {}:{}-{}", place.line, place.start, place.end)?;
        out.extend_from_slice(spelled.as_bytes())?;
    }
    Ok(())
}

/// Writes a fault: its number, name, file, line and bytes.
pub(super) fn write_fault(alloc: Global, out: &mut Vec<u8>, fault: CFault) -> Result<(), Memory> {
    let CFault::Fault { kind, place } = fault else {
        return Err(Memory);
    };
    let file = if place.header { "header" } else { "source" };
    let spelled = format!(in alloc;
        "{} {} {file} {}:{}-{}",
        kind.number(),
        kind.name(),
        place.line,
        place.start,
        place.end
    )?;
    out.extend_from_slice(spelled.as_bytes())?;
    Ok(())
}
