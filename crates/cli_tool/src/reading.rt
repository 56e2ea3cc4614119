//! The texts of files.
ghost use Rattle.std.specs.Prelude.{◌≡◌, ◌≤◌, ◌<◌, false, true, is_none, IfOk, IfErr};
ghost use Rattle.cli_tool.specs.Task.{are_within};
ghost use Rattle.cli_tool.specs.Reading.{ReadsText, ReadsTexts, HasNoText, HasNotAll};
ghost use Rattle.cli_tool.specs.Asked.{task_by};

use crate::command::Command;
use crate::status::Status;
use cg_out::{Files, ReadFault};
use std::alloc::Global;
use std::marker::Model;

/// A file that is read, and how many bytes its text may have.
#[derive(Drop)]
pub struct Input<'a> {
    pub file: &'a [u8],
    pub limit: usize,
}

impl<'a> Model for Input<'a> {
    ghost use Rattle.cli_tool.specs.Task.{Input as Read};

    ghost Value = { Read };

    ghost view = { λ i. record { file = i.file.now; limit = i.limit } };
}

/// The text of a file; contracts see its bytes.
#[derive(Drop)]
pub struct FileText {
    content: Vec<u8>,
}

impl Model for FileText {
    ghost use Rattle.std.specs.Prelude.{List, ℕ};

    ghost Value = { List ℕ };

    ghost view = { λ t. t.content.items };
}

impl FileText {
    /// Lends the bytes.
    pub fn bytes(&self) -> &[u8]
        ensures { result.now ≡ self.now }
    {
        self.content.as_slice()
    }
}

/// The text of a file, or its first bytes, one more than it may have; else the status to end with.
fn read_text<F: Files>(alloc: Global, input: &Input<'_>, files: &mut F) -> Result<FileText, Status>
    requires { input.now.limit < usize.MAX }
    ensures ok { IfOk result (λ text. ReadsText input.now text (F.seen files.old) (F.seen files.new)) }
    ensures err { IfErr result (HasNoText input.now (F.seen files.old) (F.seen files.new)) }
    ensures later { (F.seen files.old).faults ≤ (F.seen files.new).faults }
{
    let mut content = Vec::new(alloc);
    match files.read(input.file, input.limit, &mut content) {
        Ok(()) => Ok(FileText { content }),
        Err(ReadFault::Memory) => Err(Status::NoMemory),
        Err(_) => Err(Status::FileFault),
    }
}

/// The texts of the files that the command reads, in their order; else the status to end with.
pub fn read_texts<F: Files>(
    alloc: Global,
    command: &Command<'_>,
    files: &mut F,
) -> Result<Vec<FileText>, Status>
    ensures ok { IfOk result (λ texts. ReadsTexts (task_by command.now).inputs texts.items
        (F.seen files.old) (F.seen files.new)) }
    ensures err { IfErr result (HasNotAll (task_by command.now).inputs (F.seen files.old)
        (F.seen files.new)) }
    ensures later { (F.seen files.old).faults ≤ (F.seen files.new).faults }
{
    let mut texts = Vec::new(alloc);
    while let Some(input) = command.input(texts.len()) {
        let text = read_text(alloc, &input, files)?;
        if texts.push(text).is_err() {
            return Err(Status::NoMemory);
        }
    }
    Ok(texts)
}

/// The first file whose text has more bytes than it may.
pub fn too_long<'a>(command: &Command<'a>, texts: &[FileText]) -> Option<Input<'a>>
    ensures { is_none result ≡ are_within (task_by command.now).inputs texts.now }
{
    for (index, text) in texts.iter().enumerate() {
        let input = command.input(index)?;
        if text.bytes().len() > input.limit {
            return Some(input);
        }
    }
    None
}
