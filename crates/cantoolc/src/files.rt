//! The files of the machine.
ghost use Rattle.std.specs.Prelude.{◌≡◌, ◌+◌, ◌<◌, ◌≤◌, ◌++◌, length, take, OnOk, IfSome};
ghost use Rattle.std.specs.Io.{StartsWith};

use crate::sink::write_all;
use crate::telling::told;
use cg_out::{Failed, Files, ReadFault};
use std::io::{ErrorKind, Read};
use std::{fs, io, rt};

/// The files of the machine. A missing file, a name that is no UTF-8 and every other error but a
/// want of memory is counted and answered as Failed; what they hold is not told.
#[derive(Drop)]
pub struct RealFiles<'a, R: rt::Files> {
    rt: &'a R,
    faults: u64,
}

impl<'a, R: rt::Files> RealFiles<'a, R> {
    pub fn new(rt: &'a R) -> Self
        ensures { result.faults ≡ 0 }
    {
        RealFiles { rt, faults: 0 }
    }
}

/// The bytes that one read takes at most.
const PIECE: usize = 4096;

/// Appends the next `count` bytes, or all where fewer are left.
pub fn read_up_to<R: Read>(from: &mut R, count: usize, into: &mut Vec<u8>) -> io::Result<()>
    ensures front { StartsWith into.new.items into.old.items }
    ensures bound { length into.new.items ≤ length into.old.items + count }
    ensures bytes { OnOk result (IfSome (R.remaining from.old) (λ xs. into.new.items ≡ into.old.items ++ take count xs)) }
{
    let mut left = count;
    let mut piece = [0u8; PIECE];
    for _ in 0..u64::MAX {
        if left == 0 {
            return Ok(());
        }
        let room = left.min(PIECE);
        let taken = from.read(&mut piece[..room])?;
        into.extend_from_slice(&piece[..taken])?;
        left -= taken;
        if taken == 0 {
            return Ok(());
        }
    }
    Err(ErrorKind::Other.into())
}

/// Appends the first `limit + 1` bytes of the file, or all of a shorter one. A failure is told, but
/// for a want of memory.
fn read_file<R: rt::Files + Eprint>(
    rt: &R,
    name: &[u8],
    limit: usize,
    into: &mut Vec<u8>,
) -> io::Result<()>
    requires { limit < usize.MAX }
    ensures front { StartsWith into.new.items into.old.items }
    ensures bound { length into.new.items ≤ length into.old.items + limit + 1 }
{
    match read_front(rt, name, limit, into) {
        Err(e) if e.kind() == ErrorKind::OutOfMemory => Err(e),
        outcome => told(rt, name, "cannot be read", outcome),
    }
}

fn read_front<R: rt::Files>(rt: &R, name: &[u8], limit: usize, into: &mut Vec<u8>) -> io::Result<()>
    requires { limit < usize.MAX }
    ensures front { StartsWith into.new.items into.old.items }
    ensures bound { length into.new.items ≤ length into.old.items + limit + 1 }
{
    let Ok(path) = str::from_utf8(name) else {
        return Err(ErrorKind::InvalidInput.into());
    };
    let mut file = fs::open(rt, path)?;
    read_up_to(&mut file, limit + 1, into)
}

/// Makes or empties the file, and writes all bytes. A failure is told.
fn write_file<R: rt::Files + Eprint>(rt: &R, name: &[u8], bytes: &[u8]) -> io::Result<()> {
    told(rt, name, "cannot be written", write_whole(rt, name, bytes))
}

fn write_whole<R: rt::Files>(rt: &R, name: &[u8], bytes: &[u8]) -> io::Result<()> {
    let Ok(path) = str::from_utf8(name) else {
        return Err(ErrorKind::InvalidInput.into());
    };
    let mut file = fs::create(rt, path)?;
    write_all(&mut file, bytes)
}

impl<R: rt::Files + Eprint> Files for RealFiles<'_, R> {
    ghost use Rattle.std.specs.declared.option.Option.TheVariants.{None};

    ghost seen = { λ f. record { content = None; faults = f.faults; calls = None } };

    fn read(&mut self, name: &[u8], limit: usize, into: &mut Vec<u8>) -> Result<(), ReadFault> {
        let before = into.len();
        match read_file(self.rt, name, limit, into) {
            Ok(()) => Ok(()),
            Err(e) if e.kind() == ErrorKind::OutOfMemory => {
                into.truncate(before);
                Err(ReadFault::Memory)
            }
            Err(_) => {
                into.truncate(before);
                self.faults = self.faults.saturating_add(1);
                Err(ReadFault::Failed)
            }
        }
    }

    fn write(&mut self, name: &[u8], bytes: &[u8]) -> Result<(), Failed> {
        match write_file(self.rt, name, bytes) {
            Ok(()) => Ok(()),
            Err(_) => {
                self.faults = self.faults.saturating_add(1);
                Err(Failed)
            }
        }
    }
}

#[cfg(test)]
mod tests {
    use super::*;
    use std::test::Fail;

    #[test]
    fn what_is_written_is_read(rt: HostRuntime) -> Result<(), Fail> {
        let mut files = RealFiles::new(&rt);
        let mut into = Vec::from_slice(rt.alloc(), b">")?;
        assert_eq!(rt;
            files.read(b"absent.tmp", 9, &mut into),
            Err(ReadFault::Failed)
        );
        assert_eq!(rt; files.write(b"written.tmp", b"longer than that"), Ok(()));
        assert_eq!(rt; files.write(b"written.tmp", b"abcd"), Ok(()));
        assert_eq!(rt; files.read(b"written.tmp", 2, &mut into), Ok(()));
        assert_eq!(rt; into.as_slice(), b">abc".as_slice());
        assert_eq!(rt; files.read(b"written.tmp", 9, &mut into), Ok(()));
        assert_eq!(rt; into.as_slice(), b">abcabcd".as_slice());
        assert_eq!(rt; files.write(b"no/such/folder", b"x"), Err(Failed));
        assert_eq!(rt; files.write(b"\xff", b"x"), Err(Failed));
        assert_eq!(rt; files.faults, 3);
        Ok(())
    }
}
