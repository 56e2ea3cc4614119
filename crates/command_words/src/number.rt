//! Numbers in words.
ghost use Rattle.std.specs.Prelude.{◌≡◌};
ghost use Rattle.std.specs.Str.{all_ascii_digits};
ghost use Rattle.command_words.specs.NumberWord as spec;

use crate::cutting::behind;

/// The number of decimal digits, where they are some and it is below 2 ^ 64.
pub fn whole_in(digits: &[u8]) -> Option<u64>
    ensures { result ≡ spec.whole_in digits.now }
{
    if digits.is_empty() || !are_digits(digits) {
        return None;
    }
    match str::from_utf8(digits) {
        Ok(text) => text.parse::<u64>().ok(),
        Err(_) => None,
    }
}

fn are_digits(bytes: &[u8]) -> bool
    ensures { result ≡ all_ascii_digits bytes.now }
{
    for byte in bytes {
        if !byte.is_ascii_digit() {
            return false;
        }
    }
    true
}

/// The number of decimal digits behind a `-` or none, where they are some and it is below 2 ^ 64
/// without its sign.
pub fn number_in(word: &[u8]) -> Option<i128>
    ensures { result ≡ spec.number_in word.now }
{
    match behind(b"-", word) {
        Some(digits) => Some(-i128::from(whole_in(digits)?)),
        None => Some(i128::from(whole_in(word)?)),
    }
}

/// Whether the word is a decimal whole number, of any size: digits behind a `-` or none.
pub fn is_number(word: &[u8]) -> bool
    ensures { result ≡ spec.is_number word.now }
{
    match behind(b"-", word) {
        Some(digits) => are_some_digits(digits),
        None => are_some_digits(word),
    }
}

fn are_some_digits(bytes: &[u8]) -> bool
    ensures { result ≡ spec.are_some_digits bytes.now }
{
    !bytes.is_empty() && are_digits(bytes)
}
