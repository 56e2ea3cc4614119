//! Where on its line a byte of a text stands.
ghost use Rattle.std.specs.Prelude.{◌≡◌, ◌≤◌, ◌+◌, not, ◌==◌, length, take};
ghost use Rattle.std.specs.List.{suffix_len};

use c_lexer::SOURCE_LIMIT;
use command_words::up_to_last_of;

/// The column of the byte at the offset, counted in bytes from 1: how far it is behind the last
/// line end before it.
pub fn column_of(text: &[u8], start: u32) -> u32
    requires { length text.now ≤ SOURCE_LIMIT }
    ensures { result ≡ suffix_len (λ b. not (b == 10)) (take start text.now) + 1 }
{
    let before = front(text, start as usize);
    (before.len() - up_to_last_of(b'\n', before)) as u32 + 1
}

/// The first so many bytes, or all of fewer.
fn front(bytes: &[u8], count: usize) -> &[u8]
    ensures value { result.now ≡ take count bytes.now }
    ensures within { length result.now ≤ length bytes.now }
{
    if bytes.len() > count {
        &bytes[..count]
    } else {
        bytes
    }
}
