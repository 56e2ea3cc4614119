//! What the name of a file says.
ghost use Rattle.std.specs.Prelude.{◌≡◌, ◌-◌, ◌++◌, length, drop, map, IfOk};
ghost use Rattle.std.specs.Char.{to_ascii_lowercase};
ghost use Rattle.cli_tool.specs.FileName.{base_name, stem_of, database_name, header_path, source_path, is_sym};

use cg_out::{Memory, Text};
use command_words::up_to_last_of;
use name_rules::identifier;
use std::alloc::Global;

/// The name of a file without its folders.
pub fn base(path: &[u8]) -> &[u8]
    ensures { result.now ≡ base_name path.now }
{
    &path[up_to_last_of(b'/', path)..]
}

fn stem(base: &[u8]) -> &[u8]
    ensures { result.now ≡ stem_of base.now }
{
    let end = up_to_last_of(b'.', base);
    if end > 1 { &base[..end - 1] } else { base }
}

/// The name of the database in a file: the identifier of the bytes after the last `/` and before
/// the last `.` that is not the first of them.
#[tactic(auto, unfolding(crate::specs::FileName::database_name))]
pub fn name(alloc: Global, path: &[u8]) -> Result<Text, Memory>
    ensures { IfOk result (λ t. t ≡ database_name path.now) }
{
    identifier(alloc, stem(base(path)))
}

/// The file that the header is written to.
#[tactic(auto, unfolding(crate::specs::FileName::header_path))]
pub fn header_file(alloc: Global, path: &[u8]) -> Result<Vec<u8>, Memory>
    ensures { IfOk result (λ v. v.items ≡ header_path path.now) }
{
    named_file(alloc, path, b".h")
}

/// The file that the source is written to.
#[tactic(auto, unfolding(crate::specs::FileName::source_path))]
pub fn source_file(alloc: Global, path: &[u8]) -> Result<Vec<u8>, Memory>
    ensures { IfOk result (λ v. v.items ≡ source_path path.now) }
{
    named_file(alloc, path, b".c")
}

/// The name of the database and an ending.
fn named_file(alloc: Global, path: &[u8], ending: &[u8]) -> Result<Vec<u8>, Memory>
    ensures { IfOk result (λ v. v.items ≡ database_name path.now ++ ending.now) }
{
    let name = name(alloc, path)?;
    let mut file = Vec::from_slice(alloc, name.bytes())?;
    file.extend_from_slice(ending)?;
    Ok(file)
}

/// Whether the path is that of a SYM file.
pub fn names_sym(path: &[u8]) -> bool
    ensures { result ≡ is_sym path.now }
{
    last_four(path).eq_ignore_ascii_case(b".sym")
}

fn last_four(bytes: &[u8]) -> &[u8]
    ensures { result.now ≡ drop (length bytes.now - 4) bytes.now }
{
    &bytes[bytes.len().saturating_sub(4)..]
}
