//! The characters that tokens begin and go on with (ISO/IEC 9899:1999, 5.2.1 and 6.4).
ghost use Rattle.std.specs.Prelude.{◌≡◌, not, ◌+◌, ◌^◌, ◌<◌, ◌≤◌, length, drop, take_while};
ghost use Rattle.c_text.specs.Characters as characters;
ghost use Rattle.c_text.specs.Splice as splices;

/// Whether a line ends with the byte.
pub fn is_line_end(byte: u8) -> bool
    ensures { result ≡ characters.is_line_end byte }
{
    byte == b'\n'
}

/// Whether the byte is white space (6.4).
pub fn is_blank(byte: u8) -> bool
    ensures { result ≡ characters.is_blank byte }
{
    matches!(byte, b' ' | 9..=13)
}

/// Whether the byte is a letter or the underscore (6.4.2.1).
pub fn is_letter(byte: u8) -> bool
    ensures { result ≡ characters.is_letter byte }
{
    matches!(byte, b'a'..=b'z' | b'A'..=b'Z' | b'_')
}

/// Whether the byte is a digit (6.4.2.1).
pub fn is_digit(byte: u8) -> bool
    ensures { result ≡ characters.is_digit byte }
{
    byte.is_ascii_digit()
}

/// Whether a name goes on with the byte (6.4.2.1).
pub fn goes_on(byte: u8) -> bool
    ensures { result ≡ characters.goes_on byte }
{
    is_letter(byte) || is_digit(byte)
}

/// Whether there is a first byte, and it is this one.
pub fn first_is(byte: u8, bytes: &[u8]) -> bool
    ensures { result ≡ characters.first_is byte bytes.now }
{
    matches!(bytes, [first, ..] if *first == byte)
}

/// How many bytes of a name stand at the front.
pub fn name_length(bytes: &[u8]) -> usize
    ensures value { result ≡ length (take_while characters.goes_on bytes.now) }
    ensures within { result ≤ length bytes.now }
{
    bytes.iter().take_while(|b| goes_on(**b)).count()
}

/// How many bytes stand before the end of the first line.
pub fn line_length(bytes: &[u8]) -> usize
    ensures value { result ≡ length (take_while (λ b. not (characters.is_line_end b)) bytes.now) }
    ensures within { result ≤ length bytes.now }
{
    bytes.iter().take_while(|b| !is_line_end(**b)).count()
}

/// The line of the byte behind one.
pub fn line_after(line: u32, byte: u8) -> u32
    requires { line < 2 ^ 31 }
    ensures value { result ≡ splices.line_after line byte }
    ensures within { result ≤ line + 1 }
{
    if is_line_end(byte) { line + 1 } else { line }
}

/// The bytes behind the first `count` ones.
pub fn behind(bytes: &[u8], count: usize) -> &[u8]
    requires { count ≤ length bytes.now }
    ensures { result.now ≡ drop count bytes.now }
{
    &bytes[count..]
}
