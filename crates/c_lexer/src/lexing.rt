//! From bytes to tokens (ISO/IEC 9899:1999, 6.4): the longest match from the left.
ghost use Rattle.std.specs.Prelude.{◌≡◌, ◌+◌, ◌≤◌, length};
ghost use Rattle.c_text.specs.Refusal.{Gives};
ghost use Rattle.c_text.specs.Tokens as lexing;
ghost use Rattle.c_lexer.specs.Lexemes.{lexeme_of, reach_of};

use crate::character::behind;
use crate::lexeme::{Lexeme, read_piece};
use crate::splice::line_behind;
use c_text::{CFault, CKind, Place, Token};
use std::alloc::Global;

/// The most bytes of a text that is cut into tokens: 64 MiB.
pub const SOURCE_LIMIT: usize = 67_108_864;

/// In how many bytes of a lexeme a splice is the first fault: in all, or in the first byte where the
/// lexeme is a fault itself.
fn reach(lexeme: &Lexeme, length: usize) -> usize
    ensures { result ≡ reach_of (lexeme_of lexeme.now) length }
{
    match lexeme {
        Lexeme::Bad(_) => 1,
        _ => length,
    }
}

/// The tokens of a text (ISO/IEC 9899:1999, 6.4): of the header, or of the source.
///
/// Comments and white space are gone. A token is fresh where it is the text's first, or a line end
/// outside comments stands before it.
///
/// A text with a fault has no tokens. The first fault is the answer, and at one byte a splice is:
/// BadToken for bytes that are no token of the subset, a constant of 2^64 or more, or a digraph, at
/// their first byte; OpenComment for a comment without its end, at its `/*`; Splice for a backslash
/// or `??`, also in comments and strings, at its first byte. Memory is the answer where it runs out.
pub fn tokens(alloc: Global, text: &[u8], header: bool) -> Result<Vec<Token>, CFault>
    requires { length text.now ≤ SOURCE_LIMIT }
    ensures exact { Gives (λ v. v.items) result (lexing.tokens header text.now) }
{
    let mut tokens = Vec::new(alloc);
    let mut left = text;
    let mut line = 1u32;
    let mut start = 0u32;
    let mut fresh = true;
    while !left.is_empty() {
        let first = left[0];
        let piece = read_piece(alloc, left, first, behind(left, 1))?;
        let length = piece.more + 1;
        let end = start + length as u32;
        let place = Place {
            header,
            line,
            start,
            end,
        };
        match line_behind(left, reach(&piece.lexeme, length), header, line, start) {
            Ok(next) => line = next,
            Err(place) => {
                return Err(CFault::Fault {
                    kind: CKind::Splice,
                    place,
                });
            }
        }
        match piece.lexeme {
            Lexeme::Token(kind) => {
                tokens.push(Token { kind, place, fresh })?;
                fresh = false;
            }
            Lexeme::LineEnd => fresh = true,
            Lexeme::Space => {}
            Lexeme::Bad(kind) => return Err(CFault::Fault { kind, place }),
        }
        start = end;
        left = behind(left, length);
    }
    Ok(tokens)
}
