//! Words of multiplexed signals.
ghost use Rattle.std.specs.Prelude.{◌≡◌};
ghost use Rattle.dbc_reader.specs.MuxWord as words;

use crate::lexing::digits_length;

/// Whether a word is `M`, or `m` and digits, or `m`, digits and `M`.
#[tactic(auto, unfolding(crate::specs::MuxWord::is_mux))]
pub fn is_mux(word: &[u8]) -> bool
    ensures { result ≡ words.is_mux word.now }
{
    word == b"M".as_slice() || is_child(word)
}

fn is_child(word: &[u8]) -> bool
    ensures { result ≡ words.is_child word.now }
{
    match word {
        [b'm', rest @ ..] => is_number_of_child(rest),
        _ => false,
    }
}

/// Whether this is digits, at least one, and behind them nothing or `M`.
fn is_number_of_child(bytes: &[u8]) -> bool
    ensures { result ≡ words.is_number_of_child bytes.now }
{
    match bytes {
        [first, ..] => first.is_ascii_digit() && is_end(behind_digits(bytes)),
        [] => false,
    }
}

fn behind_digits(bytes: &[u8]) -> &[u8]
    ensures { result.now ≡ words.behind_digits bytes.now }
{
    &bytes[digits_length(bytes)..]
}

fn is_end(bytes: &[u8]) -> bool
    ensures { result ≡ words.is_end bytes.now }
{
    bytes.is_empty() || bytes == b"M".as_slice()
}
