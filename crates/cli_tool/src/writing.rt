//! The files that a command writes.
ghost use Rattle.std.specs.Prelude.{◌≤◌, OnOk, OnErr};
ghost use Rattle.cli_tool.specs.Writing.{WritesFiles, TearsFiles};

use crate::answer::Output;
use cg_out::{Failed, Files};

/// Writes the files in their order, up to one that fails; takes no memory.
pub fn write_files<F: Files>(outputs: &[Output], files: &mut F) -> Result<(), Failed>
    ensures ok { OnOk result (WritesFiles 0 outputs.now (F.seen files.old) (F.seen files.new)) }
    ensures err { OnErr result (TearsFiles 0 outputs.now (F.seen files.old) (F.seen files.new)) }
    ensures later { (F.seen files.old).faults ≤ (F.seen files.new).faults }
{
    for output in outputs {
        files.write(&output.file, &output.bytes)?;
    }
    Ok(())
}
