//! The lines of a file, as slices of its tokens.
use c_text::{CKind, Place, Token};

/// The standard headers that may be included.
#[derive(Clone, Copy, Debug, PartialEq, Eq)]
pub enum Header {
    /// `<stdbool.h>`
    StdBool,
    /// `<stddef.h>`
    StdDef,
    /// `<stdint.h>`
    StdInt,
    /// `<string.h>`
    StringH,
}

/// What a line is, with the place of the `#` of a directive that may be refused.
#[derive(Clone, Copy, Debug)]
pub enum Line<'a> {
    /// Tokens that are no directive, of one line or of several adjacent ones.
    Text(&'a [Token]),
    /// An include of a standard header.
    Standard(Header),
    /// An include of the header that stands beside the source.
    Quoted,
    /// A macro's name and body.
    Define {
        hash: Place,
        name: &'a [u8],
        body: &'a [Token],
    },
    /// `#ifdef`, where the name is wanted, or `#ifndef`.
    Conditional {
        hash: Place,
        wanted: bool,
        name: &'a [u8],
    },
    /// `#else`
    Otherwise {
        hash: Place,
    },
    /// `#endif`
    EndIf {
        hash: Place,
    },
    /// A conditional line that belongs to no whole conditional.
    Unbalanced {
        hash: Place,
    },
    /// A directive that may not stand there.
    Refused {
        hash: Place,
        kind: CKind,
    },
}
