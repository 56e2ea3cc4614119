//! Tokens, and the types of integers that tokens name.
use crate::place::Place;
use cg_out::Text;

/// The types of integers of the subset.
#[derive(Clone, Copy, Debug, PartialEq, Eq)]
pub enum IntType {
    /// `_Bool`.
    Bool,
    SignedChar,
    UnsignedChar,
    Short,
    UnsignedShort,
    Int,
    UnsignedInt,
    Long,
    UnsignedLong,
    LongLong,
    UnsignedLongLong,
}

/// A type of integers as a text spells it.
#[derive(Clone, Copy, Debug, PartialEq, Eq)]
pub enum Spelled {
    /// An exact-width type, as `uint8_t`; the width is in bits.
    Exact { width: u32, signed: bool },
    /// `size_t`.
    Size,
    /// A type that is spelled by keywords.
    Plain(IntType),
}

/// An integer constant.
#[derive(Clone, Copy, Debug, PartialEq, Eq)]
pub struct Constant {
    pub value: u64,
    /// 8, 10 or 16; the digit 0 alone has base 10.
    pub base: u8,
    /// Whether its suffix has a `u`.
    pub unsigned: bool,
    /// How many `l` its suffix has: 0, 1 or 2.
    pub longs: u8,
}

/// What a token is.
#[derive(Debug, Drop)]
pub enum TokenKind {
    /// A name or a keyword.
    Word(Text),
    Constant(Constant),
    /// The content of a string.
    Quoted(Text),
    /// The spelling of a punctuator.
    Mark(Text),
    /// An exact-width type or `size_t` after its header.
    TypeName(Spelled),
    /// `NULL` after its header.
    Null,
    /// `memset` after its header.
    Memset,
}

/// A token of a text.
#[derive(Debug, Drop)]
pub struct Token {
    pub kind: TokenKind,
    pub place: Place,
    /// Whether it is the first of its text, or a line end outside comments stands between it and
    /// the token before.
    pub fresh: bool,
}
