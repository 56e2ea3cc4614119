//! Why a C text is refused.
ghost use Rattle.std.specs.Prelude.{◌≡◌};
ghost use Rattle.c_text.specs.declared.refusal.CFault.TheVariants.{Memory};

use crate::place::Place;
use std::alloc::{AllocError, AllocFailed};

/// What is wrong with a C text.
#[derive(Clone, Copy, Debug, PartialEq, Eq)]
pub enum CKind {
    /// Bytes that are no token of the subset, a constant of 2^64 or more, or a digraph.
    BadToken,
    /// A backslash or `??`, wherever it stands.
    Splice,
    /// A comment without its end.
    OpenComment,
    /// A directive that the subset does not have.
    BadDirective,
    /// An include of a header that is not known there.
    UnknownHeader,
    /// A macro whose body has a name.
    MacroBody,
    /// A macro that is defined again with another body.
    Redefined,
    /// `#else` or `#endif` without its beginning, or a conditional without its end.
    Unbalanced,
    /// A part that no form of the grammar fits.
    Syntax,
    /// More brackets open inside one another than are read.
    TooDeep,
    /// A name that is used before its declaration.
    UnknownName,
    /// An operand, argument or value of a kind that may not stand there.
    TypeMismatch,
    /// A store through a pointer to const.
    ConstWrite,
    /// A second declaration in one scope that does not agree with the first.
    Redeclared,
    /// A call of a function that has a pointer parameter, or of `memset` inside an expression.
    ImpureCall,
    /// A call of a function that itself calls.
    DeepCall,
    /// Two equal values, or two defaults, in one switch.
    DuplicateCase,
    /// A declared name that begins with an underscore.
    ReservedName,
}

impl CKind {
    ghost use Rattle.c_text.specs.Refusal.{kind_number, kind_name};

    /// The number under which reports name it.
    pub fn number(self) -> u8
        ensures { result ≡ kind_number self }
    {
        match self {
            CKind::BadToken => 40,
            CKind::Splice => 41,
            CKind::OpenComment => 42,
            CKind::BadDirective => 43,
            CKind::UnknownHeader => 44,
            CKind::MacroBody => 45,
            CKind::Redefined => 46,
            CKind::Unbalanced => 47,
            CKind::Syntax => 48,
            CKind::TooDeep => 49,
            CKind::UnknownName => 50,
            CKind::TypeMismatch => 51,
            CKind::ConstWrite => 52,
            CKind::Redeclared => 53,
            CKind::ImpureCall => 54,
            CKind::DeepCall => 55,
            CKind::DuplicateCase => 56,
            CKind::ReservedName => 57,
        }
    }

    /// The name that stands behind the number in reports.
    pub fn name(self) -> &'static str
        ensures { result.now ≡ kind_name self }
    {
        match self {
            CKind::BadToken => "BadToken",
            CKind::Splice => "Splice",
            CKind::OpenComment => "OpenComment",
            CKind::BadDirective => "BadDirective",
            CKind::UnknownHeader => "UnknownHeader",
            CKind::MacroBody => "MacroBody",
            CKind::Redefined => "Redefined",
            CKind::Unbalanced => "Unbalanced",
            CKind::Syntax => "Syntax",
            CKind::TooDeep => "TooDeep",
            CKind::UnknownName => "UnknownName",
            CKind::TypeMismatch => "TypeMismatch",
            CKind::ConstWrite => "ConstWrite",
            CKind::Redeclared => "Redeclared",
            CKind::ImpureCall => "ImpureCall",
            CKind::DeepCall => "DeepCall",
            CKind::DuplicateCase => "DuplicateCase",
            CKind::ReservedName => "ReservedName",
        }
    }

    /// What a person is told of it, in one sentence.
    pub fn message(self) -> &'static str {
        match self {
            CKind::BadToken => "no token that is read begins like this",
            CKind::Splice => "a backslash or two question marks may not stand in a text",
            CKind::OpenComment => "this comment has no end",
            CKind::BadDirective => "no directive that is read has this form",
            CKind::UnknownHeader => "no header of this name is known here",
            CKind::MacroBody => "the body of this macro has a name in it",
            CKind::Redefined => "this macro was defined before with another body",
            CKind::Unbalanced => "this conditional lacks its beginning or its end",
            CKind::Syntax => "no form of C that is read fits here",
            CKind::TooDeep => "more brackets are open here than are read",
            CKind::UnknownName => "this name is not declared before its use",
            CKind::TypeMismatch => "a value of this type may not stand here",
            CKind::ConstWrite => "this writes through a pointer to const",
            CKind::Redeclared => "this does not agree with an earlier declaration in its scope",
            CKind::ImpureCall =>
                "a function that takes a pointer may not be called, nor memset inside an expression",
            CKind::DeepCall => "a function that itself calls may not be called",
            CKind::DuplicateCase => "this switch has two equal values or two defaults",
            CKind::ReservedName => "a declared name may not begin with an underscore",
        }
    }
}

/// Why a stage of reading C gives nothing.
#[derive(Clone, Copy, Debug, PartialEq, Eq)]
pub enum CFault {
    /// The first fault of the stage, and where it shows.
    Fault { kind: CKind, place: Place },
    /// Memory ran out.
    Memory,
}

impl From<AllocError> for CFault {
    ghost from_gives = { λ _ e. e ≡ Memory };

    fn from(_e: AllocError) -> CFault {
        CFault::Memory
    }
}

impl<T: Drop> From<AllocFailed<T>> for CFault {
    ghost from_gives = { λ _ e. e ≡ Memory };

    fn from(_e: AllocFailed<T>) -> CFault {
        CFault::Memory
    }
}

impl From<cg_out::Memory> for CFault {
    ghost from_gives = { λ _ e. e ≡ Memory };

    fn from(_e: cg_out::Memory) -> CFault {
        CFault::Memory
    }
}
