//! Files in memory, some of whose calls fail.
ghost use Rattle.std.specs.Prelude.{◌≡◌, ◌+◌, ◌<◌, ◌↔◌, is_none, length, take, is_ok, IfOk, IfSome, IsSome, OnOk, OnErr, IsErrOf, sum_by};
ghost use Rattle.std.specs.FinMap as map;
ghost use Rattle.std.specs.Option.{option_copied};
ghost use Rattle.cg_out.specs.MemoryFolder.{folder_after};

use crate::failing::{CallLog, Failing, front};
use crate::fault::{Failed, Memory, ReadFault};
use crate::outside::Files;
use crate::shelf::Shelf;
use crate::text::Text;
use std::alloc::Global;

/// A file that files in memory begin with.
#[derive(Debug, Drop)]
pub struct Entry {
    pub name: Text,
    pub bytes: Text,
}

/// Files in memory. A write takes the bytes of its name and its content of the room that was
/// reserved at the beginning, and at most 64 writes are kept; one that does not fit, or whose
/// number is in `failing`, is a fault. What they hold is always told.
#[derive(Drop)]
pub struct MemoryFiles {
    shelf: Shelf,
    log: CallLog,
}

const WRITES: usize = 64;

impl MemoryFiles {
    ghost use Rattle.cg_out.specs.MemoryFiles.{files_content, files_space, files_history};

    /// Files that hold the entries, the last of equal names, with room for so many bytes more.
    pub fn new(
        alloc: Global,
        entries: &[Entry],
        room: usize,
        failing: &[Failing],
    ) -> Result<MemoryFiles, Memory>
        ensures content { IfOk result (λ m. files_content m ≡ folder_after map.empty entries.now) }
        ensures history { IfOk result (λ m. files_history m ≡ record { failing = failing.now; calls = 0; faults = 0 }) }
        ensures space { IfOk result (λ m. files_space m ≡ record { bytes = room; writes = 64 }) }
    {
        Ok(MemoryFiles {
            shelf: filled(alloc, entries, room)?,
            log: CallLog::new(alloc, failing)?,
        })
    }

    /// Lends a file's bytes; takes no memory.
    pub fn file(&self, name: &[u8]) -> Option<&[u8]>
        ensures { option_copied result ≡ map.get (files_content self.now) name.now }
    {
        self.shelf.find(name)
    }
}

/// How many bytes the entries take, where that is a number of the machine.
fn size_of(entries: &[Entry]) -> Option<usize>
    ensures { IfSome result (λ n. n ≡ sum_by (λ e. length e.name + length e.bytes) entries.now) }
{
    let mut size = 0usize;
    for e in entries {
        size = size
            .checked_add(e.name.bytes().len())?
            .checked_add(e.bytes.bytes().len())?;
    }
    Some(size)
}

/// A shelf that holds the entries, with room for so many bytes more.
fn filled(alloc: Global, entries: &[Entry], room: usize) -> Result<Shelf, Memory>
    ensures { IfOk result (λ s. s ≡ (folder_after map.empty entries.now, (room, 64))) }
{
    let size = size_of(entries).ok_or(Memory)?;
    let total = size.checked_add(room).ok_or(Memory)?;
    let places = entries.len().checked_add(WRITES).ok_or(Memory)?;
    let mut shelf = Shelf::new(alloc, total, places)?;
    for e in entries {
        let name = e.name.bytes();
        let bytes = e.bytes.bytes();
        shelf.put(name, bytes, name.len() + bytes.len());
    }
    Ok(shelf)
}

impl Files for MemoryFiles {
    ghost use Rattle.std.specs.FinMap.{get, insert};
    ghost use Rattle.cg_out.specs.Outside.{HasCause, CountsCall, Reads, HasReadCause, IsTornWrite, IfTold};
    ghost use Rattle.cg_out.specs.InMemory.{next_keep, after_call, after_write, succeeds};
    ghost use Rattle.cg_out.specs.MemoryFiles.{files_content, files_space, files_history, files_seen, taken_by, content_after};

    ghost seen = { files_seen };

    fn read(&mut self, name: &[u8], limit: usize, into: &mut Vec<u8>) -> Result<(), ReadFault>
        requires { limit < usize.MAX }
        ensures ok { OnOk result (Reads (files_seen self.old).content name.now limit into.old.items into.new.items) }
        ensures err { OnErr result (into.new.items ≡ into.old.items) }
        ensures content { (files_seen self.new).content ≡ (files_seen self.old).content }
        ensures cause { HasReadCause (files_seen self.old).content name.now (files_seen self.old).faults (files_seen self.new).faults result }
        ensures calls { CountsCall (files_seen self.old).calls (files_seen self.new).calls }

        // A call that is to fail fails, and no other one; a name that is lacking is absent.
        ensures failed { IsErrOf result ReadFault.Failed ↔ IsSome (next_keep (files_history self.old)) }
        ensures absent { IsErrOf result ReadFault.Absent ↔ ((next_keep (files_history self.old) ≡ None) × (get (files_content self.old) name.now ≡ None)) }
        ensures history { files_history self.new ≡ after_call (files_history self.old) (is_none (next_keep (files_history self.old))) }
        ensures space { files_space self.new ≡ files_space self.old }
    {
        if self.log.begin().is_some() {
            self.log.fail();
            return Err(ReadFault::Failed);
        }
        let Some(bytes) = self.shelf.find(name) else {
            return Err(ReadFault::Absent);
        };
        match into.extend_from_slice(front(bytes, limit + 1)) {
            Ok(()) => Ok(()),
            Err(_) => Err(ReadFault::Memory),
        }
    }

    fn write(&mut self, name: &[u8], bytes: &[u8]) -> Result<(), Failed>
        ensures ok { OnOk result (IfTold (files_seen self.old).content (files_seen self.new).content (λ a b. b ≡ insert a name.now bytes.now)) }
        ensures err { OnErr result (IfTold (files_seen self.old).content (files_seen self.new).content (λ a b. IsTornWrite a b name.now bytes.now)) }
        ensures cause { HasCause (files_seen self.old).faults (files_seen self.new).faults result }
        ensures calls { CountsCall (files_seen self.old).calls (files_seen self.new).calls }

        // A write that fits takes its room, whether its call fails or not, and no other one changes anything.
        ensures success { is_ok result ≡ succeeds (files_space self.old) (taken_by name.now bytes.now) (files_history self.old) }
        ensures left { files_content self.new ≡ content_after (files_content self.old) (files_space self.old) (files_history self.old) name.now bytes.now }
        ensures space { files_space self.new ≡ after_write (files_space self.old) (taken_by name.now bytes.now) }
        ensures history { files_history self.new ≡ after_call (files_history self.old) (is_ok result) }
    {
        let keep = self.log.begin();
        let Some(taken) = name.len().checked_add(bytes.len()) else {
            self.log.fail();
            return Err(Failed);
        };
        if !self.shelf.fits(taken) {
            self.log.fail();
            return Err(Failed);
        }
        match keep {
            None => {
                self.shelf.put(name, bytes, taken);
                Ok(())
            }
            Some(keep) => {
                self.shelf.put(name, front(bytes, keep), taken);
                self.log.fail();
                Err(Failed)
            }
        }
    }
}
