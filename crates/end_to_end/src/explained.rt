//! What a person is told of a refused text.
use cg_out::{Entry, Failed, MemoryFiles, MemorySink, Sink, Text};
use cli_tool::{Word, run};
use std::test::Fail;

/// A sink in memory that notes what a person is told; a column that is not told is 0.
#[derive(Drop)]
struct Noting {
    sink: MemorySink,
    notes: String,
}

impl Sink for Noting {
    ghost use Rattle.cg_out.specs.MemorySink.{sink_seen};

    ghost seen = { λ n. sink_seen n.sink };

    fn write(&mut self, bytes: &[u8]) -> Result<(), Failed> {
        self.sink.write(bytes)
    }

    fn explain(&mut self, file: &[u8], line: u32, column: Option<u32>, message: &str) {
        let file = str::from_utf8(file).unwrap_or("?");
        let column = column.unwrap_or(0);
        // A note that finds no memory is missing, and the test fails.
        let _ = write!(self.notes, "{file}:{line}:{column}: {message}");
    }
}

const NOTES: &[(&str, &[u8], &[u8], &str)] = &[
    (
        "check in/h.h t.c",
        b"",
        b"int f(void)\n{ return 1 }",
        "t.c:2:3: no form of C that is read fits here",
    ),
    (
        "check in/h.h t.c",
        b"\n\n  /*",
        b"",
        "in/h.h:3:3: this comment has no end",
    ),
    (
        "generate_c_source t.c",
        b"",
        b"BO_ 1 A: 8 X\nSG_ S M :",
        "t.c:2:0: this form is not read yet",
    ),
    (
        "generate_c_source t.c",
        b"",
        b"BO_ 1 A:\n",
        "t.c:2:0: no statement that may stand here goes on like this",
    ),
    (
        "generate_c_source t.c",
        b"",
        b"\nBO_ 1 A: 2049 X",
        "t.c:2:0: a message has at most 2048 bytes",
    ),
    (
        "exec in/h.h t.c lp64 g",
        b"",
        b"int f(void) { return 1; }",
        "t.c:0:0: no function of this name is defined",
    ),
    (
        "exec in/h.h t.c lp64 f bytes:00",
        b"",
        b"int\nf(int a) { return a; }",
        "t.c:2:0: this function does not take these arguments",
    ),
    ("check in/h.h t.c", b"", b"", ""),
    (
        "decode t.c 497 00",
        b"",
        b"",
        "t.c:0:0: no message has this number",
    ),
    (
        "encode t.c A S=2 T",
        b"",
        b"\nBO_ 1 A: 8 X",
        "t.c:2:0: these words are no values of the signals of this message",
    ),
    ("decode t.c 497 0", b"", b"", ""),
];

#[test]
fn refusals_are_explained(rt: HostRuntime) -> Result<(), Fail> {
    let alloc = rt.alloc();
    for &(words, header, source, notes) in NOTES {
        let mut entries = Vec::new(alloc);
        for (name, bytes) in [("in/h.h", header), ("t.c", source)] {
            entries.push(Entry {
                name: Text::copy_of(alloc, name.as_bytes())?,
                bytes: Text::copy_of(alloc, bytes)?,
            })?;
        }
        let mut asked = Vec::new(alloc);
        for word in words.split_ascii_whitespace() {
            asked.push(Word::new(String::from_str(alloc, word)?))?;
        }
        let mut files = MemoryFiles::new(alloc, &entries, 0, &[])?;
        let mut out = Noting {
            sink: MemorySink::new(alloc, 100, &[])?,
            notes: String::new(alloc),
        };
        let _ = run(alloc, &asked, &mut files, &mut out);
        assert_eq!(rt; out.notes.as_str(), notes, "of {words}");
    }
    Ok(())
}
