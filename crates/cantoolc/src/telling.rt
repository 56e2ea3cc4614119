//! The standard error: what went wrong outside.
ghost use Rattle.std.specs.Prelude.{◌≡◌};

use std::io;

/// Tells a failure to use a file, as `cantoolc: can.dbc: cannot be read: entity not found`.
pub fn told<R: Eprint>(
    rt: &R,
    name: &[u8],
    trouble: &str,
    outcome: io::Result<()>,
) -> io::Result<()>
    ensures { result ≡ outcome }
{
    if let Err(e) = &outcome {
        let name = str::from_utf8(name).unwrap_or("a file whose name is no text");
        // The exit status says as much, so an error here changes nothing.
        let _ = eprintln!(rt; "cantoolc: {name}: {trouble}: {}", e.kind());
    }
    outcome
}
