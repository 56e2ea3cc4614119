//! The standard output.
ghost use Rattle.std.specs.Prelude.{◌≡◌, OnOk};
ghost use Rattle.std.specs.Io.KnownBytes.{Appends};

use crate::telling::told;
use cg_out::{Failed, Sink};
use std::io;
use std::io::{ErrorKind, Write};

/// The standard output, and the standard error for words to a person. Every error of the former is
/// counted; what was written is not told.
#[derive(Drop)]
pub struct RealSink<'a, R: Print> {
    rt: &'a R,
    faults: u64,
}

impl<'a, R: Print> RealSink<'a, R> {
    pub fn new(rt: &'a R) -> Self
        ensures { result.faults ≡ 0 }
    {
        RealSink { rt, faults: 0 }
    }
}

/// Writes all bytes, piece by piece; a piece of which none is taken is an error.
pub fn write_all<W: Write>(to: &mut W, bytes: &[u8]) -> io::Result<()>
    ensures { OnOk result (Appends (W.contents to.old) (W.contents to.new) bytes.now) }
{
    let mut left = bytes;
    for _ in 0..u64::MAX {
        if left.is_empty() {
            return Ok(());
        }
        let taken = to.write(left)?;
        if taken == 0 {
            return Err(ErrorKind::WriteZero.into());
        }
        left = &left[taken..];
    }
    Err(ErrorKind::Other.into())
}

/// Writes all bytes to the standard output. A failure is told.
fn write_report<R: Print + Eprint>(rt: &R, bytes: &[u8]) -> io::Result<()> {
    let mut to = io::writer(rt);
    told(
        rt,
        b"the report",
        "cannot be written",
        write_all(&mut to, bytes),
    )
}

impl<R: Print + Eprint> Sink for RealSink<'_, R> {
    ghost use Rattle.std.specs.declared.option.Option.TheVariants.{None};

    ghost seen = { λ s. record { written = None; faults = s.faults; calls = None } };

    fn write(&mut self, bytes: &[u8]) -> Result<(), Failed> {
        match write_report(self.rt, bytes) {
            Ok(()) => Ok(()),
            Err(_) => {
                self.faults = self.faults.saturating_add(1);
                Err(Failed)
            }
        }
    }

    fn explain(&mut self, file: &[u8], line: u32, column: Option<u32>, message: &str) {
        let file = str::from_utf8(file).unwrap_or("a file");
        // The report and the exit status say as much, so an error here changes nothing.
        let _ = match (line, column) {
            (0, _) => eprintln!(self.rt; "{file}: error: {message}"),
            (_, None) => eprintln!(self.rt; "{file}:{line}: error: {message}"),
            (_, Some(column)) => eprintln!(self.rt; "{file}:{line}:{column}: error: {message}"),
        };
    }
}

#[cfg(test)]
mod tests {
    use super::*;

    #[test]
    fn a_report_is_taken(rt: HostRuntime) {
        let mut out = RealSink::new(&rt);
        assert_eq!(rt; out.write(b"a report\n"), Ok(()));
        assert_eq!(rt; out.faults, 0);
    }
}
