//! Words of the command line.
ghost use Rattle.std.specs.Prelude.{◌≡◌, string_bytes};
ghost use Rattle.std.specs.Str.{is_utf8};

use std::marker::Model;

/// A word of the command line, in any encoding; contracts see its bytes.
#[derive(Drop)]
pub struct Word {
    bytes: Vec<u8>,
}

impl Model for Word {
    ghost use Rattle.std.specs.Prelude.{List, ℕ};

    ghost Value = { List ℕ };

    ghost view = { λ w. w.bytes.items };
}

impl Word {
    pub fn new(text: String) -> Word
        ensures { result ≡ string_bytes text }
    {
        Word {
            bytes: text.into_bytes(),
        }
    }

    /// A word that may be no text.
    pub fn from_bytes(bytes: Vec<u8>) -> Word
        ensures { result ≡ bytes.items }
    {
        Word { bytes }
    }

    /// Lends the bytes.
    pub fn bytes(&self) -> &[u8]
        ensures { result.now ≡ self.now }
    {
        self.bytes.as_slice()
    }

    pub fn is_utf8(&self) -> bool
        ensures { result ≡ is_utf8 self.now }
    {
        str::from_utf8(self.bytes()).is_ok()
    }
}
