//! Why a text is refused.
ghost use Rattle.std.specs.Prelude.{◌≡◌};
ghost use Rattle.can_model.specs.declared.refusal.TextFault.TheVariants.{Memory};

use std::alloc::{AllocError, AllocFailed};

/// The length in bytes that a database's text may have; a longer one is TooLarge.
pub const TEXT_LIMIT: usize = 8_388_608;

/// What is wrong with a text.
#[derive(Clone, Copy, Debug, PartialEq, Eq)]
pub enum TextKind {
    /// A byte that may not stand there.
    BadByte,
    /// A string without its end.
    OpenString,
    /// A number that does not fit its place.
    BadNumber,
    /// The first token that no statement goes on with, or the end inside a statement.
    Unexpected,
    /// A text longer than `TEXT_LIMIT`; its line is 0.
    TooLarge,
    /// A signal before any message.
    LateSignal,
    /// A SYM text whose first line names no format version 6.0.
    FormatVersion,
    /// A SYM signal or enumeration that is used and not defined.
    UnknownName,
    /// A SYM type of no known name.
    SignalType,
    /// A form that this version does not read.
    NotYet,
}

impl TextKind {
    ghost use Rattle.can_model.specs.Refusal.{number_of, name_of};

    /// The number under which reports name it.
    pub fn number(self) -> u8
        ensures { result ≡ number_of self }
    {
        match self {
            TextKind::BadByte => 1,
            TextKind::OpenString => 2,
            TextKind::BadNumber => 3,
            TextKind::Unexpected => 4,
            TextKind::TooLarge => 5,
            TextKind::LateSignal => 6,
            TextKind::FormatVersion => 7,
            TextKind::UnknownName => 8,
            TextKind::SignalType => 9,
            TextKind::NotYet => 25,
        }
    }

    /// The name that stands behind the number in reports.
    pub fn name(self) -> &'static str
        ensures { result.now ≡ name_of self }
    {
        match self {
            TextKind::BadByte => "BadByte",
            TextKind::OpenString => "OpenString",
            TextKind::BadNumber => "BadNumber",
            TextKind::Unexpected => "Unexpected",
            TextKind::TooLarge => "TooLarge",
            TextKind::LateSignal => "LateSignal",
            TextKind::FormatVersion => "FormatVersion",
            TextKind::UnknownName => "UnknownName",
            TextKind::SignalType => "SignalType",
            TextKind::NotYet => "NotYet",
        }
    }

    /// What a person is told of it, in one sentence.
    pub fn message(self) -> &'static str {
        match self {
            TextKind::BadByte => "this byte may not stand here",
            TextKind::OpenString => "this string has no end",
            TextKind::BadNumber => "this number does not fit here",
            TextKind::Unexpected => "no statement that may stand here goes on like this",
            TextKind::TooLarge => "this text is longer than a text of its kind may be",
            TextKind::LateSignal => "this signal stands before any message",
            TextKind::FormatVersion => "the first line does not name the format version 6.0",
            TextKind::UnknownName => "this signal or enumeration is not defined",
            TextKind::SignalType => "no type has this name",
            TextKind::NotYet => "this form is not read yet",
        }
    }
}

/// Why a reader gives no database.
#[derive(Clone, Copy, Debug, PartialEq, Eq)]
pub enum TextFault {
    /// The first fault of the text, and its line; 0 where it is of the text as a whole.
    Fault { kind: TextKind, line: u32 },
    /// Memory ran out.
    Memory,
}

impl From<AllocError> for TextFault {
    ghost from_gives = { λ _ e. e ≡ Memory };

    fn from(_e: AllocError) -> TextFault {
        TextFault::Memory
    }
}

impl<T: Drop> From<AllocFailed<T>> for TextFault {
    ghost from_gives = { λ _ e. e ≡ Memory };

    fn from(_e: AllocFailed<T>) -> TextFault {
        TextFault::Memory
    }
}

impl From<cg_out::Memory> for TextFault {
    ghost from_gives = { λ _ e. e ≡ Memory };

    fn from(_e: cg_out::Memory) -> TextFault {
        TextFault::Memory
    }
}
