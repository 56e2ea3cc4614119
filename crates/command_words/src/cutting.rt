//! Words in parts.
ghost use Rattle.std.specs.Prelude.{◌≡◌, ◌<◌, ◌≤◌, ◌==◌, length, position, IfSome};
ghost use Rattle.std.specs.Option.{option_map};
ghost use Rattle.command_words.specs.CutWord as spec;

/// What stands before the first of a sign, and what stands behind it.
pub fn cut_at(sign: u8, word: &[u8]) -> Option<(&[u8], &[u8])>
    ensures parts { option_map (λ p. (p.0.now, p.1.now)) result ≡ spec.cut_at sign word.now }
    ensures shorter { IfSome result (λ p. length p.1.now < length word.now) }
{
    let at = place_of(sign, word)?;
    Some((&word[..at], &word[at + 1..]))
}

fn place_of(sign: u8, word: &[u8]) -> Option<usize>
    ensures place { result ≡ position (λ b. b == sign) word.now }
    ensures within { IfSome result (λ i. i < length word.now) }
{
    word.iter().position(|b| *b == sign)
}

/// What stands before the last of a sign, and what stands behind it.
pub fn cut_at_last(sign: u8, word: &[u8]) -> Option<(&[u8], &[u8])>
    ensures { option_map (λ p. (p.0.now, p.1.now)) result ≡ spec.cut_at_last sign word.now }
{
    let end = up_to_last_of(sign, word);
    if end == 0 {
        return None;
    }
    Some((&word[..end - 1], &word[end..]))
}

/// How many bytes stand up to and with the last that equals the mark, 0 where there is none.
pub fn up_to_last_of(mark: u8, bytes: &[u8]) -> usize
    ensures value { result ≡ spec.up_to_last mark bytes.now }
    ensures within { result ≤ length bytes.now }
{
    let mut end = bytes.len();
    while end > 0 && bytes[end - 1] != mark {
        end -= 1;
    }
    end
}

/// What follows a beginning, where the word has it.
pub fn behind<'a>(beginning: &[u8], word: &'a [u8]) -> Option<&'a [u8]>
    ensures { option_map (λ w. w.now) result ≡ spec.behind beginning.now word.now }
{
    word.strip_prefix(beginning)
}
