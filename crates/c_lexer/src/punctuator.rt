//! Punctuators (ISO/IEC 9899:1999, 6.4.6), without digraphs.
ghost use Rattle.std.specs.Prelude.{◌≡◌, ◌≤◌, length, take, IfSome};
ghost use Rattle.std.specs.List.{list_any};
ghost use Rattle.std.specs.Option.{option_map};
ghost use Rattle.c_text.specs.Punctuator as punctuators;

/// Whether one of the other spellings of `[`, `]`, `{`, `}` and `#` (6.4.6p3) stands in front.
fn begins_digraph(text: &[u8]) -> bool
    ensures { result ≡ list_any (λ d. punctuators.begins d text.now) punctuators.digraphs }
{
    matches!(
        text,
        [b'<', b':' | b'%', ..] | [b':' | b'%', b'>', ..] | [b'%', b':', ..]
    )
}

/// Whether a punctuator of three characters stands in front.
fn begins_three(text: &[u8]) -> bool
    ensures { result ≡ list_any (λ m. punctuators.begins m text.now) punctuators.threes }
{
    matches!(
        text,
        [b'.', b'.', b'.', ..] | [b'<', b'<', b'=', ..] | [b'>', b'>', b'=', ..]
    )
}

/// Whether a punctuator of two characters stands in front.
fn begins_two(text: &[u8]) -> bool
    ensures { result ≡ list_any (λ m. punctuators.begins m text.now) punctuators.twos }
{
    matches!(
        text,
        [b'-', b'>', ..]
            | [b'+', b'+', ..]
            | [b'-', b'-', ..]
            | [b'<', b'<', ..]
            | [b'>', b'>', ..]
            | [b'&', b'&', ..]
            | [b'|', b'|', ..]
            | [b'#', b'#', ..]
            | [b'!' | b'%' | b'&' | b'*' | b'+' | b'-' | b'/', b'=', ..]
            | [b'<'..=b'>' | b'^' | b'|', b'=', ..]
    )
}

/// Whether a punctuator of one character stands in front.
fn begins_one(text: &[u8]) -> bool
    ensures { result ≡ list_any (λ m. punctuators.begins m text.now) punctuators.ones }
{
    matches!(
        text,
        [b'!' | b'#' | b'%' | b'&' | b'('..=b'/' | b':'..=b'?', ..]
            | [b'[' | b']' | b'^' | b'{'..=b'~', ..]
    )
}

/// The length of the longest punctuator in front, where that is no digraph.
#[tactic(auto, using(crate::proofs::MarkTables::mark_at_longest))]
pub fn mark_length(text: &[u8]) -> Option<usize>
    ensures value { option_map (λ n. take n text.now) result ≡ punctuators.mark_at text.now }
    ensures some { IfSome result (λ n. 1 ≤ n) }
    ensures within { IfSome result (λ n. n ≤ length text.now) }
{
    if begins_digraph(text) {
        None
    } else if begins_three(text) {
        Some(3)
    } else if begins_two(text) {
        Some(2)
    } else if begins_one(text) {
        Some(1)
    } else {
        None
    }
}
