//! Rows of the pairs that `generate_c_source` writes: the bytes of a source, and what `check`,
//! `exec` and `encode` tell of pairs.
use crate::databases::EXAMPLE;
use cg_out::{Entry, MemoryFiles, MemorySink, Text};
use cli_tool::{Status, Word, run};
use std::alloc::Global;
use std::process::Abort;
use std::test::Fail;

/// The source of `EXAMPLE`.
const EXAMPLE_SOURCE: &[u8] = b"/* Generated from a CAN database. Do not edit. */

#include <string.h>

#include \"example.h\"

static uint8_t pack_left_shift_u8(uint8_t value, uint8_t shift, uint8_t mask)
{
    return (uint8_t)((uint8_t)(value << shift) & mask);
}

static uint8_t pack_left_shift_u16(uint16_t value, uint8_t shift, uint8_t mask)
{
    return (uint8_t)((uint8_t)(value << shift) & mask);
}

static uint8_t pack_right_shift_u16(uint16_t value, uint8_t shift, uint8_t mask)
{
    return (uint8_t)((uint8_t)(value >> shift) & mask);
}

int example_example_pack(uint8_t *dst_p, const struct example_example_t *src_p, size_t size)
{
    uint16_t temperature;
    if (size < 8u) {
        return (-EINVAL);
    }
    memset(dst_p, 0, 8u);
    dst_p[0] |= pack_left_shift_u8(src_p->enable, 7u, 0x80u);
    dst_p[0] |= pack_left_shift_u8(src_p->average_radius, 1u, 0x7eu);
    temperature = (uint16_t)src_p->temperature;
    dst_p[0] |= pack_right_shift_u16(temperature, 11u, 0x01u);
    dst_p[1] |= pack_right_shift_u16(temperature, 3u, 0xffu);
    dst_p[2] |= pack_left_shift_u16(temperature, 5u, 0xe0u);
    return (8);
}
";

/// A command over the files that stand by then, its status and its report.
type Told = (&'static str, Status, &'static str);

/// A database, and what is told of its pair.
#[derive(Clone, Copy)]
struct Pair {
    /// The name of the database's file without its ending.
    name: &'static str,
    /// `~` stands for the rest of a signal of which no more is said.
    text: &'static str,
    /// The bytes of the source, where they are compared.
    source: Option<&'static [u8]>,
    /// The commands behind `generate_c_source`, in turn.
    told: &'static [Told],
}

const PAIRS: &[Pair] = &[
    Pair {
        name: "example",
        text: EXAMPLE,
        source: Some(EXAMPLE_SOURCE),
        told: &[
            ("check example.h example.c", Status::Done, "ok\n"),
            (
                "exec example.h example.c lp64 example_example_pack raw:8 struct:enable=1,average_radius=32,temperature=55 int:8",
                Status::Done,
                "return 8\narg 1: c006e00000000000\narg 2: enable=1 average_radius=32 temperature=55\n",
            ),
            (
                "encode example.dbc Example Enable=1 AverageRadius=32 Temperature=55",
                Status::Done,
                "c006e00000000000\n",
            ),
            (
                "exec example.h example.c ilp32 example_example_pack raw:8 struct:enable=0,average_radius=0,temperature=-1 int:8",
                Status::Done,
                "return 8\narg 1: 01ffe00000000000\narg 2: enable=0 average_radius=0 temperature=-1\n",
            ),
            (
                "exec example.h example.c lp64 example_example_pack null null int:7",
                Status::Done,
                "return -22\n",
            ),
            (
                "exec example.h example.c lp64 example_example_pack stray stray int:0",
                Status::Done,
                "return -22\n",
            ),
            (
                "exec example.h example.c lp64 example_example_pack raw:9 struct:enable=1,average_radius=32,temperature=55 int:9",
                Status::Done,
                "return 8\narg 1: c006e00000000000--\narg 2: enable=1 average_radius=32 temperature=55\n",
            ),
        ],
    },
    Pair {
        name: "edge",
        text: "BO_ 513 Low: 2 X SG_ Mid : 6|10@1+~ BO_ 514 Big: 8 X SG_ All : 0|64@1+~ BO_ 515 Small: 1 X SG_ Level : 3|5@1+~ BO_ 516 Ping: 0 X",
        source: None,
        told: &[
            ("check edge.h edge.c", Status::Done, "ok\n"),
            (
                "exec edge.h edge.c lp64 edge_low_pack raw:2 struct:mid=677 int:2",
                Status::Done,
                "return 2\narg 1: 40a9\narg 2: mid=677\n",
            ),
            (
                "exec edge.h edge.c lp64 edge_big_pack raw:8 struct:all=18446744073709551615 int:8",
                Status::Done,
                "return 8\narg 1: ffffffffffffffff\narg 2: all=18446744073709551615\n",
            ),
            (
                "exec edge.h edge.c lp64 edge_small_pack raw:1 struct:level=37 int:1",
                Status::Done,
                "return 1\narg 1: 28\narg 2: level=37\n",
            ),
            (
                "exec edge.h edge.c lp64 edge_ping_pack null null int:0",
                Status::Done,
                "return 0\n",
            ),
        ],
    },
    Pair {
        name: "edge",
        text: "BO_ 517 Names: 4 X SG_ True : 0|8@1+~ SG_ Default : 8|8@1+~ SG_ size : 16|8@1-~ SG_ memset : 24|8@1-~",
        source: None,
        told: &[
            ("check edge.h edge.c", Status::Done, "ok\n"),
            (
                "exec edge.h edge.c lp64 edge_names_pack raw:4 struct:true_2=1,default_2=2,size=-1,memset_2=-2 int:4",
                Status::Done,
                "return 4\narg 1: 0102fffe\narg 2: true_2=1 default_2=2 size=-1 memset_2=-2\n",
            ),
        ],
    },
    Pair {
        name: "edge",
        text: "BO_ 1 A: 1 X SG_ S : 0|8@1+~ CM_ SG_ 1 S \"*/ int x;\" ;",
        source: None,
        told: &[("check edge.h edge.c", Status::Done, "ok\n")],
    },
    Pair {
        name: "edge",
        text: "VERSION \"\" BU_: X",
        source: None,
        told: &[("check edge.h edge.c", Status::Done, "ok\n")],
    },
];

/// Runs a command over these files, and compares.
fn told(
    rt: &impl Abort,
    alloc: Global,
    files: &mut MemoryFiles,
    command: &str,
    status: Status,
    report: &str,
) -> Result<(), Fail> {
    let mut words = Vec::new(alloc);
    for word in command.split_ascii_whitespace() {
        words.push(Word::new(String::from_str(alloc, word)?))?;
    }
    let mut out = MemorySink::new(alloc, 200, &[])?;
    assert_eq!(rt; run(alloc, &words, files, &mut out), status, "of {command}");
    assert_eq!(rt; out.bytes(), report.as_bytes(), "the report of {command}");
    Ok(())
}

/// Runs commands in turn.
fn all_told(
    rt: &impl Abort,
    alloc: Global,
    files: &mut MemoryFiles,
    commands: &[Told],
) -> Result<(), Fail> {
    for &(command, status, report) in commands {
        told(rt, alloc, files, command, status, report)?;
    }
    Ok(())
}

#[test]
fn pairs_are_checked_and_called(rt: HostRuntime) -> Result<(), Fail> {
    let alloc = rt.alloc();
    for &pair in PAIRS {
        let Pair {
            name,
            text,
            source,
            told: commands,
        } = pair;
        let text = text.replace(alloc, "~", " (1,0) [0|0] \"\" X")?;
        let file = format!(in alloc; "{name}.dbc")?;
        let entries = [Entry {
            name: Text::copy_of(alloc, file.as_bytes())?,
            bytes: Text::copy_of(alloc, text.as_bytes())?,
        }];
        let mut files = MemoryFiles::new(alloc, &entries, 1 << 14, &[])?;
        let command = format!(in alloc; "generate_c_source {file}")?;
        let report = format!(in alloc; "{name}.h\n{name}.c\n")?;
        told(&rt, alloc, &mut files, &command, Status::Done, &report)?;
        if let Some(source) = source {
            let written = format!(in alloc; "{name}.c")?;
            assert_eq!(rt; files.file(written.as_bytes()), Some(source));
        }
        all_told(&rt, alloc, &mut files, commands)?;
    }
    Ok(())
}
