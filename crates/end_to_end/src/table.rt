//! A run, and what is to stand in the outside after it.
use cg_out::{Entry, Failing, MemoryFiles, MemorySink, Text};
use cli_tool::{Status, Word, run};
use std::alloc::Global;
use std::process::Abort;
use std::test::Fail;

/// A run over files in memory: what it is given, and what is to come.
#[derive(Clone, Copy)]
pub(super) struct Row<'a> {
    /// Separated by blanks.
    pub words: &'a str,
    pub files: &'a [(&'a str, &'a [u8])],
    /// The calls of the files that fail, and those of the sink.
    pub failing: &'a [Failing],
    pub sink_failing: &'a [Failing],
    pub status: Status,
    pub report: &'a [u8],
    /// The files that are to hold these bytes, or to be absent.
    pub left: &'a [(&'a str, Option<&'a [u8]>)],
}

/// A run of these words over one file, none of whose calls fail.
pub(super) fn plain<'a>(
    words: &'a str,
    files: &'a [(&'a str, &'a [u8])],
    status: Status,
    report: &'a [u8],
    left: &'a [(&'a str, Option<&'a [u8]>)],
) -> Row<'a> {
    Row {
        words,
        files,
        failing: &[],
        sink_failing: &[],
        status,
        report,
        left,
    }
}

/// Runs the row and compares.
pub(super) fn check(rt: &impl Abort, alloc: Global, row: &Row<'_>) -> Result<(), Fail> {
    check_about(rt, alloc, row, row.words)
}

/// The same, where the text `about` tells what is run.
pub(super) fn check_about(
    rt: &impl Abort,
    alloc: Global,
    row: &Row<'_>,
    about: &str,
) -> Result<(), Fail> {
    let mut entries = Vec::new(alloc);
    for (name, bytes) in row.files {
        entries.push(Entry {
            name: Text::copy_of(alloc, name.as_bytes())?,
            bytes: Text::copy_of(alloc, bytes)?,
        })?;
    }
    let mut words = Vec::new(alloc);
    for word in row.words.split_ascii_whitespace() {
        words.push(Word::new(String::from_str(alloc, word)?))?;
    }
    let mut files = MemoryFiles::new(alloc, &entries, 1 << 20, row.failing)?;
    let mut out = MemorySink::new(alloc, 100, row.sink_failing)?;
    assert_eq!(rt;
        run(alloc, &words, &mut files, &mut out),
        row.status,
        "of {about}"
    );
    assert_eq!(rt; out.bytes(), row.report, "the report of {about}");
    for (name, bytes) in row.left {
        assert_eq!(rt; files.file(name.as_bytes()), *bytes, "{name} after {about}");
    }
    Ok(())
}

/// Runs rows in turn.
pub(super) fn check_all(rt: &impl Abort, alloc: Global, rows: &[Row<'_>]) -> Result<(), Fail> {
    for row in rows {
        check(rt, alloc, row)?;
    }
    Ok(())
}
