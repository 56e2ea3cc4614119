//! A run of bytes.
ghost use Rattle.std.specs.Prelude.{◌≡◌, ◌≤◌, length, IfOk};

use crate::fault::Memory;
use std::alloc::Global;
use std::marker::Model;

/// The most bytes that lie in a text itself, with no allocation of their own: it then takes 16.
const ROOM: usize = 14;

/// Bytes, in any encoding; contracts see the list of them.
#[derive(Debug, Drop)]
pub struct Text {
    content: Content,
}

/// Where the bytes lie.
#[derive(Debug, Drop)]
enum Content {
    Inline(Short),
    Heap(Box<Vec<u8>>),
}

impl Model for Text {
    ghost use Rattle.std.specs.Prelude.{List, ℕ};
    ghost use Rattle.cg_out.specs.Text.{bytes_of};

    ghost Value = { List ℕ };

    ghost view = { λ t. bytes_of t.content };
}

impl Text {
    /// A copy of the bytes.
    pub fn copy_of(alloc: Global, bytes: &[u8]) -> Result<Text, Memory>
        ensures { IfOk result (λ t. t ≡ bytes.now) }
    {
        let content = if bytes.len() <= ROOM {
            Content::Inline(Short::copy_of(bytes))
        } else {
            Content::Heap(Box::new(alloc, Vec::from_slice(alloc, bytes)?)?)
        };
        Ok(Text { content })
    }

    /// Lends the bytes.
    pub fn bytes(&self) -> &[u8]
        ensures { result.now ≡ self.now }
    {
        match &self.content {
            Content::Inline(short) => short.bytes(),
            Content::Heap(long) => long.as_slice(),
        }
    }
}

/// A few bytes, in place.
#[derive(Debug, Drop)]
struct Short {
    count: u8,
    room: [u8; ROOM],
}

impl Model for Short {
    ghost use Rattle.std.specs.Prelude.{List, ℕ, take, ◌≤◌};

    ghost Value = { List ℕ };

    ghost view = { λ s. take s.count s.room };

    ghost invariant = { λ s. s.count ≤ 14 };
}

impl Short {
    fn copy_of(bytes: &[u8]) -> Short
        requires { length bytes.now ≤ 14 }
        ensures { result ≡ bytes.now }
    {
        let mut room = [0; ROOM];
        room[..bytes.len()].copy_from_slice(bytes);
        Short {
            count: bytes.len() as u8,
            room,
        }
    }

    fn bytes(&self) -> &[u8]
        ensures { result.now ≡ self.now }
    {
        &self.room[..self.count as usize]
    }
}
