//! Line splices and trigraphs (ISO/IEC 9899:1999, 5.1.1.2 and 5.2.1.1), which are refused wherever
//! they stand.
ghost use Rattle.std.specs.Prelude.{◌≡◌, Some, ◌+◌, ◌<◌, ◌≤◌, length, count_by, take, drop, IfOk, IfErr};
ghost use Rattle.c_text.specs.Characters.{is_line_end};
ghost use Rattle.c_text.specs.Splice as splices;

use crate::character::{behind, first_is, line_after};
use crate::lexing::SOURCE_LIMIT;
use c_text::Place;

/// Whether a backslash, or the first of two question marks, stands before the bytes.
fn begins_splice(byte: u8, rest: &[u8]) -> bool
    ensures { result ≡ splices.begins_splice byte rest.now }
{
    byte == b'\\' || byte == b'?' && first_is(b'?', rest)
}

/// The line behind the first `count` bytes of a text that begins on this line at this offset, or the
/// first splice or trigraph that begins among them.
pub fn line_behind(
    text: &[u8],
    count: usize,
    header: bool,
    line: u32,
    start: u32,
) -> Result<u32, Place>
    requires count { count ≤ length text.now }
    requires lines { line + length text.now ≤ SOURCE_LIMIT + 1 }
    requires bytes { start + length text.now ≤ SOURCE_LIMIT }
    ensures line { IfOk result (λ l. l ≡ line + count_by is_line_end (take count text.now)) }
    ensures none { IfOk result (λ l. splices.first_splice header line start text.now
        ≡ splices.first_splice header l (start + count) (drop count text.now)) }
    ensures first { IfErr result (λ p. splices.first_splice header line start text.now ≡ Some p) }
    ensures among { IfErr result (λ p. p.start < start + count) }
{
    let mut line = line;
    for (i, byte) in text[..count].iter().enumerate() {
        let at = start + i as u32;
        if begins_splice(*byte, behind(text, i + 1)) {
            return Err(Place {
                header,
                line,
                start: at,
                end: at + 1,
            });
        }
        line = line_after(line, *byte);
    }
    Ok(line)
}
