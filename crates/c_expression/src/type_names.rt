//! The types of integers as tokens spell them (ISO/IEC 9899:1999, 6.7.2 and 7.18.1.1).
ghost use Rattle.std.specs.Prelude.{◌≡◌, ◌≤◌, length, IfSome};
ghost use Rattle.c_tree.specs.TypeName as spec;

use crate::symbols::keyword;
use c_text::{IntType, Spelled, Token, TokenKind};
use c_tree::Keyword;

/// The type that these tokens spell, if they do.
#[tactic(auto, unfolding(c_tree::specs::TypeName::spelled_of))]
pub fn spelled(tokens: &[Token]) -> Option<Spelled>
    ensures { result ≡ spec.spelled_of (spec.kinds_of tokens.now) }
{
    match tokens {
        [word] => of_one_token(&word.kind),
        [first, second] => {
            let plain = of_two(keyword(&first.kind)?, keyword(&second.kind)?)?;
            Some(Spelled::Plain(plain))
        }
        [first, second, third] => {
            let plain = of_three(
                keyword(&first.kind)?,
                keyword(&second.kind)?,
                keyword(&third.kind)?,
            )?;
            Some(Spelled::Plain(plain))
        }
        _ => None,
    }
}

fn of_one_token(kind: &TokenKind) -> Option<Spelled>
    ensures { result ≡ spec.of_token kind.now }
{
    match kind {
        TokenKind::TypeName(spelled) => Some(*spelled),
        _ => Some(Spelled::Plain(of_one(keyword(kind)?)?)),
    }
}

fn of_one(word: Keyword) -> Option<IntType>
    ensures { result ≡ spec.of_one word }
{
    match word {
        Keyword::Bool => Some(IntType::Bool),
        Keyword::Short => Some(IntType::Short),
        Keyword::Int => Some(IntType::Int),
        Keyword::Unsigned => Some(IntType::UnsignedInt),
        Keyword::Long => Some(IntType::Long),
        _ => None,
    }
}

fn of_two(first: Keyword, second: Keyword) -> Option<IntType>
    ensures { result ≡ spec.of_two first second }
{
    match (first, second) {
        (Keyword::Signed, Keyword::Char) => Some(IntType::SignedChar),
        (Keyword::Unsigned, Keyword::Char) => Some(IntType::UnsignedChar),
        (Keyword::Unsigned, Keyword::Short) => Some(IntType::UnsignedShort),
        (Keyword::Unsigned, Keyword::Int) => Some(IntType::UnsignedInt),
        (Keyword::Unsigned, Keyword::Long) => Some(IntType::UnsignedLong),
        (Keyword::Long, Keyword::Long) => Some(IntType::LongLong),
        _ => None,
    }
}

fn of_three(first: Keyword, second: Keyword, third: Keyword) -> Option<IntType>
    ensures { result ≡ spec.of_three first second third }
{
    match (first, second, third) {
        (Keyword::Unsigned, Keyword::Long, Keyword::Long) => Some(IntType::UnsignedLongLong),
        _ => None,
    }
}

/// The longest type at the front, and how many tokens spell it.
#[tactic(auto, unfolding(c_tree::specs::TypeName::front_type))]
pub fn front_type(tokens: &[Token]) -> Option<(Spelled, usize)>
    ensures value { result ≡ spec.front_type tokens.now }
    ensures within { IfSome result (λ t. t.1 ≤ length tokens.now) }
{
    if let Some(typed) = of_first(3, tokens) {
        return Some(typed);
    }
    if let Some(typed) = of_first(2, tokens) {
        return Some(typed);
    }
    of_first(1, tokens)
}

/// The type that the first tokens spell, or all where there are fewer.
fn of_first(count: usize, tokens: &[Token]) -> Option<(Spelled, usize)>
    ensures value { result ≡ spec.type_of_first count tokens.now }
    ensures within { IfSome result (λ t. t.1 ≤ length tokens.now) }
{
    let front = &tokens[..count.min(tokens.len())];
    Some((spelled(front)?, front.len()))
}

/// Whether a token is a word of a type, or a name that stands for one.
pub fn is_type_word(kind: &TokenKind) -> bool
    ensures { result ≡ spec.is_type_word kind.now }
{
    match kind {
        TokenKind::TypeName(_) => true,
        _ => matches!(
            keyword(kind),
            Some(
                Keyword::Bool
                    | Keyword::Char
                    | Keyword::Int
                    | Keyword::Long
                    | Keyword::Short
                    | Keyword::Signed
                    | Keyword::Unsigned
            )
        ),
    }
}
