//! Texts that are read.
ghost use Rattle.c_text.specs.Refusal.{Gives};
ghost use Rattle.c_text.specs.Tokens as lexing;

use c_lexer::{SOURCE_LIMIT, tokens};
use c_mean::{CFault, Token, Unit};
use c_parser::unit;
use c_pre::expand;
use std::alloc::Global;

/// The tokens of a text that is far shorter than the limit.
pub fn read(alloc: Global, text: &[u8], header: bool) -> Result<Vec<Token>, CFault>
    ensures { Gives (λ v. v.items) result (lexing.tokens header text.now) }
{
    if text.len() > SOURCE_LIMIT {
        return Err(CFault::Memory);
    }
    tokens(alloc, text, header)
}

/// The unit of a source beside a header that has this name, or the first fault.
pub fn unit_of(alloc: Global, file: &str, header: &[u8], source: &[u8]) -> Result<Unit, CFault> {
    let header = read(alloc, header, true)?;
    let source = read(alloc, source, false)?;
    let left = expand(alloc, &header, file.as_bytes(), &source)?;
    unit(alloc, left.tokens.items())
}
