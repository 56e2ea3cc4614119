//! The words and punctuators that the subset gives a meaning.
ghost use Rattle.std.specs.Prelude.{◌≡◌, map};
ghost use Rattle.cg_out.specs.Words.{look_up};
ghost use Rattle.c_tree.specs.Symbol.{keyword_in, mark_in, mark_of_one, mark_before_equal, mark_of_twice, mark_of_two, mark_of_three};

/// The keywords (ISO/IEC 9899:1999, 6.4.1) of the subset.
#[derive(Clone, Copy, Debug, PartialEq, Eq)]
pub enum Keyword {
    Bool,
    Break,
    Case,
    Char,
    Const,
    Default,
    Else,
    If,
    Int,
    Long,
    Return,
    Short,
    Signed,
    Static,
    Struct,
    Switch,
    Unsigned,
    Void,
    /// A keyword that the subset has no use for.
    Other,
}

/// The keywords with their spellings.
const KEYWORDS: [(&[u8], Keyword); 37] = [
    (b"_Bool", Keyword::Bool),
    (b"break", Keyword::Break),
    (b"case", Keyword::Case),
    (b"char", Keyword::Char),
    (b"const", Keyword::Const),
    (b"default", Keyword::Default),
    (b"else", Keyword::Else),
    (b"if", Keyword::If),
    (b"int", Keyword::Int),
    (b"long", Keyword::Long),
    (b"return", Keyword::Return),
    (b"short", Keyword::Short),
    (b"signed", Keyword::Signed),
    (b"static", Keyword::Static),
    (b"struct", Keyword::Struct),
    (b"switch", Keyword::Switch),
    (b"unsigned", Keyword::Unsigned),
    (b"void", Keyword::Void),
    (b"auto", Keyword::Other),
    (b"continue", Keyword::Other),
    (b"do", Keyword::Other),
    (b"double", Keyword::Other),
    (b"enum", Keyword::Other),
    (b"extern", Keyword::Other),
    (b"float", Keyword::Other),
    (b"for", Keyword::Other),
    (b"goto", Keyword::Other),
    (b"inline", Keyword::Other),
    (b"register", Keyword::Other),
    (b"restrict", Keyword::Other),
    (b"sizeof", Keyword::Other),
    (b"typedef", Keyword::Other),
    (b"union", Keyword::Other),
    (b"volatile", Keyword::Other),
    (b"while", Keyword::Other),
    (b"_Complex", Keyword::Other),
    (b"_Imaginary", Keyword::Other),
];

impl Keyword {
    /// The keyword that a word is, if it is one.
    #[tactic(auto, unfolding(crate::specs::Symbol::keyword_in))]
    pub fn of(word: &[u8]) -> Option<Keyword>
        ensures { result ≡ keyword_in word.now }
    {
        entry_of(word, &KEYWORDS)
    }
}

fn entry_of(word: &[u8], entries: &[(&[u8], Keyword)]) -> Option<Keyword>
    ensures { result ≡ look_up word.now (map (λ e. (e.0.now, e.1)) entries.now) }
{
    for (spelling, keyword) in entries {
        if *spelling == word {
            return Some(*keyword);
        }
    }
    None
}

/// The punctuators (6.4.6) of the subset.
#[derive(Clone, Copy, Debug, PartialEq, Eq)]
pub enum Punctuator {
    OpenParen,
    CloseParen,
    OpenBracket,
    CloseBracket,
    OpenBrace,
    CloseBrace,
    Comma,
    Semicolon,
    Colon,
    Arrow,
    Star,
    Complement,
    Not,
    Plus,
    Minus,
    ShiftLeft,
    ShiftRight,
    Less,
    Greater,
    LessEqual,
    GreaterEqual,
    EqualEqual,
    NotEqual,
    And,
    Caret,
    Bar,
    AndAnd,
    BarBar,
    Equal,
    BarEqual,
    AndEqual,
    CaretEqual,
    PlusEqual,
    MinusEqual,
    ShiftLeftEqual,
    ShiftRightEqual,
}

/// How many brackets may be open at a place (5.2.4.1 asks for 63 levels of brackets in an
/// expression).
pub const MOST_OPEN: u32 = 64;

/// The kinds of brackets.
#[derive(Clone, Copy, Debug, PartialEq, Eq)]
pub enum Bracket {
    /// `(` and `)`.
    Round,
    /// `[` and `]`.
    Square,
    /// `{` and `}`.
    Brace,
}

impl Punctuator {
    /// The punctuator with this spelling, if the subset has a meaning for it.
    #[tactic(auto, unfolding(crate::specs::Symbol::mark_in))]
    pub fn of(spelling: &[u8]) -> Option<Punctuator>
        ensures { result ≡ mark_in spelling.now }
    {
        match spelling {
            [first] => of_one(*first),
            [first, second] => of_two(*first, *second),
            [first, second, third] => of_three(*first, *second, *third),
            _ => None,
        }
    }
}

/// Of one character.
fn of_one(first: u8) -> Option<Punctuator>
    ensures { result ≡ mark_of_one first }
{
    match first {
        b'(' => Some(Punctuator::OpenParen),
        b')' => Some(Punctuator::CloseParen),
        b'[' => Some(Punctuator::OpenBracket),
        b']' => Some(Punctuator::CloseBracket),
        b'{' => Some(Punctuator::OpenBrace),
        b'}' => Some(Punctuator::CloseBrace),
        b',' => Some(Punctuator::Comma),
        b';' => Some(Punctuator::Semicolon),
        b':' => Some(Punctuator::Colon),
        b'*' => Some(Punctuator::Star),
        b'~' => Some(Punctuator::Complement),
        b'!' => Some(Punctuator::Not),
        b'+' => Some(Punctuator::Plus),
        b'-' => Some(Punctuator::Minus),
        b'<' => Some(Punctuator::Less),
        b'>' => Some(Punctuator::Greater),
        b'&' => Some(Punctuator::And),
        b'^' => Some(Punctuator::Caret),
        b'|' => Some(Punctuator::Bar),
        b'=' => Some(Punctuator::Equal),
        _ => None,
    }
}

/// Of a character and `=`.
fn before_equal(first: u8) -> Option<Punctuator>
    ensures { result ≡ mark_before_equal first }
{
    match first {
        b'<' => Some(Punctuator::LessEqual),
        b'>' => Some(Punctuator::GreaterEqual),
        b'=' => Some(Punctuator::EqualEqual),
        b'!' => Some(Punctuator::NotEqual),
        b'|' => Some(Punctuator::BarEqual),
        b'&' => Some(Punctuator::AndEqual),
        b'^' => Some(Punctuator::CaretEqual),
        b'+' => Some(Punctuator::PlusEqual),
        b'-' => Some(Punctuator::MinusEqual),
        _ => None,
    }
}

/// Of one character twice.
fn of_twice(first: u8) -> Option<Punctuator>
    ensures { result ≡ mark_of_twice first }
{
    match first {
        b'<' => Some(Punctuator::ShiftLeft),
        b'>' => Some(Punctuator::ShiftRight),
        b'&' => Some(Punctuator::AndAnd),
        b'|' => Some(Punctuator::BarBar),
        _ => None,
    }
}

/// Of two characters.
fn of_two(first: u8, second: u8) -> Option<Punctuator>
    ensures { result ≡ mark_of_two first second }
{
    if second == b'=' {
        before_equal(first)
    } else if first == second {
        of_twice(first)
    } else if first == b'-' && second == b'>' {
        Some(Punctuator::Arrow)
    } else {
        None
    }
}

/// Of three characters.
fn of_three(first: u8, second: u8, third: u8) -> Option<Punctuator>
    ensures { result ≡ mark_of_three first second third }
{
    match (first, second, third) {
        (b'<', b'<', b'=') => Some(Punctuator::ShiftLeftEqual),
        (b'>', b'>', b'=') => Some(Punctuator::ShiftRightEqual),
        _ => None,
    }
}
