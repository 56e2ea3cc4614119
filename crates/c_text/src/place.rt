//! Where a token stands.

/// A token's bytes in one of the two texts, the header and the source.
#[derive(Clone, Copy, Debug, PartialEq, Eq)]
pub struct Place {
    /// Whether it is the header rather than the source.
    pub header: bool,
    /// The line of the first byte, counted from 1.
    pub line: u32,
    /// The offset of the first byte.
    pub start: u32,
    /// The offset behind the last byte.
    pub end: u32,
}
