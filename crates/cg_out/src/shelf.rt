//! Files in room that was taken beforehand.
ghost use Rattle.std.specs.Prelude.{◌≡◌, ◌+◌, ◌-◌, ◌≤◌, ◌<◌, ◌==◌, ◌&&◌, nat_lt, nat_le, IfOk, length};
ghost use Rattle.std.specs.FinMap as map;
ghost use Rattle.std.specs.Option.{option_copied};

use crate::fault::Memory;
use std::alloc::Global;
use std::marker::Model;

/// Where a name and its bytes stand in the arena: `start..middle` and `middle..end`.
#[derive(Clone, Copy)]
pub struct Slot {
    start: usize,
    middle: usize,
    end: usize,
}

/// Names and their bytes one after another in one reserved run of bytes, the newest slot first.
/// Contracts see the files, and for how many bytes in how many writes there is room.
#[derive(Drop)]
pub struct Shelf {
    arena: Vec<u8>,
    slots: Vec<Slot>,
    room: usize,
    places: usize,
}

impl Model for Shelf {
    ghost use Rattle.std.specs.Prelude.{ℕ, ◌+◌, ◌≤◌, vec_len, vec_capacity};
    ghost use Rattle.std.specs.Coded.{coded_ℕ, coded_list, coded×};
    ghost use Rattle.std.specs.FinMap.{code};
    ghost use Rattle.cg_out.specs.Outside.{Folder};
    ghost use Rattle.cg_out.specs.Slots.{folder_of, AreWithin};

    ghost Value = { Folder × (ℕ × ℕ) };

    ghost coded = { coded× (code (coded_list coded_ℕ) (coded_list coded_ℕ)) (coded× coded_ℕ coded_ℕ) };

    ghost view = { λ s. (folder_of s.arena.items s.slots.items, (s.room, s.places)) };

    ghost invariant = { λ s. AreWithin s.arena.items s.slots.items × (vec_len s.arena + s.room ≤ vec_capacity s.arena) × (vec_len s.slots + s.places ≤ vec_capacity s.slots) };
}

impl Shelf {
    pub fn new(alloc: Global, room: usize, places: usize) -> Result<Shelf, Memory>
        ensures { IfOk result (λ s. s ≡ (map.empty, (room, places))) }
    {
        Ok(Shelf {
            arena: Vec::with_capacity(alloc, room)?,
            slots: Vec::with_capacity(alloc, places)?,
            room,
            places,
        })
    }

    pub fn find(&self, name: &[u8]) -> Option<&[u8]>
        ensures { option_copied result ≡ map.get self.now.0 name.now }
    {
        for s in &self.slots {
            if &self.arena[s.start..s.middle] == name {
                return Some(&self.arena[s.middle..s.end]);
            }
        }
        None
    }

    pub fn fits(&self, taken: usize) -> bool
        ensures { result ≡ (nat_lt 0 self.now.1.1 && nat_le taken self.now.1.0) }
    {
        self.places > 0 && taken <= self.room
    }

    /// Sets the name to the bytes, and takes so many bytes of the room.
    pub fn put(&mut self, name: &[u8], bytes: &[u8], taken: usize)
        requires places { 0 < self.old.1.1 }
        requires room { taken ≤ self.old.1.0 }
        requires enough { length name.now + length bytes.now ≤ taken }
        ensures { self.new ≡ (map.insert self.old.0 name.now bytes.now, (self.old.1.0 - taken, self.old.1.1 - 1)) }
    {
        let start = self.arena.len();
        self.arena.extend_from_slice(name).unwrap();
        let middle = self.arena.len();
        self.arena.extend_from_slice(bytes).unwrap();
        let end = self.arena.len();
        self.slots.insert(0, Slot { start, middle, end }).unwrap();
        self.room -= taken;
        self.places -= 1;
    }
}
