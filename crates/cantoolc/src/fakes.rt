//! The real files and the real sink over a machine that follows a script: it takes one byte at a
//! time, takes none, or fails in the middle.
ghost use Rattle.std.specs.Prelude.{◌≤◌, IfOk};

use crate::files::{RealFiles, read_up_to};
use crate::sink::{RealSink, write_all};
use cg_out::{Failed, Files, ReadFault, Sink};
use std::alloc::{Allocator, Global};
use std::cell::Cell;
use std::fmt::Display;
use std::fs::{Metadata, OpenFile, OpenOptions};
use std::io::{ErrorKind, Read, Seek, SeekFrom, Write};
use std::test::Fail;
use std::{io, rt};

/// What a call of the system does with the bytes that it is given or asked for.
#[derive(Clone, Copy)]
enum Step {
    /// Takes so many, or all where there are fewer.
    Takes(usize),
    Fails(ErrorKind),
}

/// A file of these bytes. Behind the script each call takes one byte.
#[derive(Drop)]
struct Scripted<'a> {
    script: &'a [Step],
    left: &'a [u8],
    written: Vec<u8>,
}

/// How many bytes the next call takes of at most so many.
fn next(script: &mut &[Step], most: usize) -> io::Result<usize>
    ensures { IfOk result (λ n. n ≤ most) }
{
    let step = match *script {
        [first, rest @ ..] => {
            *script = rest;
            *first
        }
        [] => Step::Takes(1),
    };
    match step {
        Step::Takes(count) => Ok(count.min(most)),
        Step::Fails(kind) => Err(kind.into()),
    }
}

impl Read for Scripted<'_> {
    fn read(&mut self, buf: &mut [u8]) -> io::Result<usize> {
        let count = next(&mut self.script, buf.len().min(self.left.len()))?;
        buf[..count].copy_from_slice(&self.left[..count]);
        self.left = &self.left[count..];
        Ok(count)
    }
}

impl Write for Scripted<'_> {
    fn write(&mut self, buf: &[u8]) -> io::Result<usize> {
        let count = next(&mut self.script, buf.len())?;
        self.written.extend_from_slice(&buf[..count])?;
        Ok(count)
    }

    fn flush(&mut self) -> io::Result<()> {
        Ok(())
    }
}

fn unsupported<T>() -> io::Result<T> {
    Err(ErrorKind::Unsupported.into())
}

impl Seek for Scripted<'_> {
    fn seek(&mut self, _to: SeekFrom) -> io::Result<u64> {
        unsupported()
    }
}

impl OpenFile for Scripted<'_> {
    fn metadata(&self) -> io::Result<Metadata> {
        unsupported()
    }

    fn set_len(&self, _size: u64) -> io::Result<()> {
        unsupported()
    }

    fn sync_all(&self) -> io::Result<()> {
        unsupported()
    }

    fn sync_data(&self) -> io::Result<()> {
        unsupported()
    }
}

const HELD: &[u8] = b"abcdef";

/// Two calls on one file: the kind of error of each, and the bytes behind it.
type Twice = [(Result<(), ErrorKind>, &'static [u8]); 2];

#[test]
fn reads_by_script(rt: HostRuntime) -> Result<(), Fail> {
    let alloc = rt.alloc();
    let rows: [(&[Step], Twice); 6] = [
        (&[], [(Ok(()), b">abcd"), (Ok(()), b">abcdef")]),
        (
            &[Step::Takes(9)],
            [(Ok(()), b">abcd"), (Ok(()), b">abcdef")],
        ),
        // No byte is the end of the file.
        (
            &[Step::Takes(3), Step::Takes(0)],
            [(Ok(()), b">abc"), (Ok(()), b">abcdef")],
        ),
        (
            &[Step::Takes(2), Step::Fails(ErrorKind::ConnectionReset)],
            [
                (Err(ErrorKind::ConnectionReset), b">ab"),
                (Ok(()), b">abcdef"),
            ],
        ),
        (
            &[Step::Fails(ErrorKind::Interrupted)],
            [(Err(ErrorKind::Interrupted), b">"), (Ok(()), b">abcd")],
        ),
        (
            &[Step::Takes(4), Step::Fails(ErrorKind::Other)],
            [(Ok(()), b">abcd"), (Err(ErrorKind::Other), b">abcd")],
        ),
    ];
    for (script, calls) in rows {
        let mut from = Scripted {
            script,
            left: HELD,
            written: Vec::new(alloc),
        };
        let mut into = Vec::from_slice(alloc, b">")?;
        for (answer, bytes) in calls {
            let found = read_up_to(&mut from, 4, &mut into);
            assert_eq!(rt; found.map_err(|e| e.kind()), answer);
            assert_eq!(rt; into.as_slice(), bytes);
        }
    }
    Ok(())
}

#[test]
fn writes_by_script(rt: HostRuntime) -> Result<(), Fail> {
    let rows: [(&[Step], Twice); 6] = [
        (&[], [(Ok(()), b"abcdef"), (Ok(()), b"abcdefabcdef")]),
        (
            &[Step::Takes(9)],
            [(Ok(()), b"abcdef"), (Ok(()), b"abcdefabcdef")],
        ),
        // No byte is an error.
        (
            &[Step::Takes(2), Step::Takes(0)],
            [(Err(ErrorKind::WriteZero), b"ab"), (Ok(()), b"ababcdef")],
        ),
        (
            &[Step::Takes(2), Step::Fails(ErrorKind::StorageFull)],
            [(Err(ErrorKind::StorageFull), b"ab"), (Ok(()), b"ababcdef")],
        ),
        (
            &[Step::Fails(ErrorKind::Interrupted)],
            [(Err(ErrorKind::Interrupted), b""), (Ok(()), b"abcdef")],
        ),
        (
            &[Step::Takes(6), Step::Fails(ErrorKind::BrokenPipe)],
            [(Ok(()), b"abcdef"), (Err(ErrorKind::BrokenPipe), b"abcdef")],
        ),
    ];
    for (script, calls) in rows {
        let mut to = Scripted {
            script,
            left: b"",
            written: Vec::new(rt.alloc()),
        };
        for (answer, bytes) in calls {
            let found = write_all(&mut to, HELD);
            assert_eq!(rt; found.map_err(|e| e.kind()), answer);
            assert_eq!(rt; to.written.as_slice(), bytes);
        }
    }
    Ok(())
}

/// A machine each of whose files has the script, and so does its standard output.
#[derive(Drop)]
struct Machine<'a> {
    alloc: Global,
    script: Cell<&'a [Step]>,
    /// What was printed to the standard error.
    told: Cell<Vec<u8>>,
}

impl<'a> rt::Files for Machine<'a> {
    type File = Scripted<'a>;

    type Dir = Scripted<'a>;

    /// A file whose name begins with `-` is missing, and one with `+` wants too much memory.
    fn open_file(&self, _how: &OpenOptions, path: &str) -> io::Result<Scripted<'a>> {
        match path.as_bytes() {
            [b'-', ..] => Err(ErrorKind::NotFound.into()),
            [b'+', ..] => Err(ErrorKind::OutOfMemory.into()),
            _ => Ok(Scripted {
                script: self.script.get(),
                left: HELD,
                written: Vec::new(self.alloc),
            }),
        }
    }

    fn open_dir(&self, _path: &str) -> io::Result<Scripted<'a>> {
        unsupported()
    }

    fn metadata(&self, _path: &str) -> io::Result<Metadata> {
        unsupported()
    }

    fn symlink_metadata(&self, _path: &str) -> io::Result<Metadata> {
        unsupported()
    }

    fn copy(&self, _from: &str, _to: &str) -> io::Result<u64> {
        unsupported()
    }

    fn rename(&self, _from: &str, _to: &str) -> io::Result<()> {
        unsupported()
    }

    fn remove_file(&self, _path: &str) -> io::Result<()> {
        unsupported()
    }

    fn create_dir(&self, _path: &str) -> io::Result<()> {
        unsupported()
    }

    fn remove_dir(&self, _path: &str) -> io::Result<()> {
        unsupported()
    }

    fn remove_dir_all<B: Allocator>(&self, _alloc: B, _path: &str) -> io::Result<()> {
        unsupported()
    }
}

impl Print for Machine<'_> {
    fn print<D: Display + Drop>(&self, _value: D) -> io::Result<()> {
        unsupported()
    }

    fn println<D: Display + Drop>(&self, _value: D) -> io::Result<()> {
        unsupported()
    }

    fn write_all(&self, _bytes: &[u8]) -> io::Result<()> {
        unsupported()
    }

    fn write_some(&self, bytes: &[u8]) -> io::Result<usize> {
        let mut script = self.script.get();
        let taken = next(&mut script, bytes.len());
        self.script.set(script);
        taken
    }
}

impl Eprint for Machine<'_> {
    fn eprint<D: Display + Drop>(&self, _value: D) -> io::Result<()> {
        unsupported()
    }

    fn eprintln<D: Display + Drop>(&self, value: D) -> io::Result<()> {
        let line = format!(in self.alloc; "{value}\n")?;
        let mut told = self.told.replace(Vec::new(self.alloc));
        let taken = told.extend_from_slice(line.as_bytes());
        self.told.set(told);
        Ok(taken?)
    }
}

/// What a failure's row gives: the calls of the system, a file, the answers of a read and a write,
/// and what a person is told.
type Told = (
    &'static [Step],
    &'static [u8],
    Result<(), ReadFault>,
    Result<(), Failed>,
    &'static [u8],
);

const FAILING: &[Step] = &[Step::Takes(2), Step::Fails(ErrorKind::ConnectionReset)];

const TOLD: &[Told] = &[
    (&[], b"a.dbc", Ok(()), Ok(()), b""),
    (
        FAILING,
        b"a.dbc",
        Err(ReadFault::Failed),
        Err(Failed),
        b"cantoolc: a.dbc: cannot be read: connection reset
cantoolc: a.dbc: cannot be written: connection reset
",
    ),
    (
        &[],
        b"-.dbc",
        Err(ReadFault::Failed),
        Err(Failed),
        b"cantoolc: -.dbc: cannot be read: entity not found
cantoolc: -.dbc: cannot be written: entity not found
",
    ),
    // A want of memory is no failure of a read.
    (
        &[],
        b"+.dbc",
        Err(ReadFault::Memory),
        Err(Failed),
        b"cantoolc: +.dbc: cannot be written: out of memory\n",
    ),
    (
        &[],
        b"\xff",
        Err(ReadFault::Failed),
        Err(Failed),
        b"cantoolc: a file whose name is no text: cannot be read: invalid input parameter
cantoolc: a file whose name is no text: cannot be written: invalid input parameter
",
    ),
];

#[test]
fn a_failure_is_told(rt: HostRuntime) -> Result<(), Fail> {
    let alloc = rt.alloc();
    for &(script, name, read, write, told) in TOLD {
        let machine = Machine {
            alloc,
            script: Cell::new(script),
            told: Cell::new(Vec::new(alloc)),
        };
        let mut files = RealFiles::new(&machine);
        let mut into = Vec::from_slice(alloc, b">")?;
        assert_eq!(rt; files.read(name, 9, &mut into), read);
        let taken = if read.is_ok() {
            b">abcdef".as_slice()
        } else {
            b">"
        };
        assert_eq!(rt; into.as_slice(), taken);
        assert_eq!(rt; files.write(name, b"xyz"), write);
        assert_eq!(rt; machine.told.replace(Vec::new(alloc)).as_slice(), told);
    }
    Ok(())
}

#[test]
fn a_report_is_taken_by_bytes(rt: HostRuntime) -> Result<(), Fail> {
    let alloc = rt.alloc();
    let fails = [Step::Takes(2), Step::Fails(ErrorKind::BrokenPipe)];
    let machine = Machine {
        alloc,
        script: Cell::new(&fails),
        told: Cell::new(Vec::new(alloc)),
    };
    let mut out = RealSink::new(&machine);
    assert_eq!(rt; out.write(b"ok\n"), Err(Failed));
    assert_eq!(rt; out.write(b"ok\n"), Ok(()));
    machine.script.set(&[Step::Takes(0)]);
    assert_eq!(rt; out.write(b"ok\n"), Err(Failed));
    let told = b"cantoolc: the report: cannot be written: broken pipe
cantoolc: the report: cannot be written: write zero
";
    assert_eq!(rt;
        machine.told.replace(Vec::new(alloc)).as_slice(),
        told.as_slice()
    );
    Ok(())
}
