//! The rows.
use crate::table::{Row, check, check_all, plain};
use cg_out::{Entry, Failing, MemoryFiles, MemorySink, Text};
use cli_tool::{Status, Word, run};
use std::alloc::Global;
use std::test::Fail;

const CAN: &[u8] = b"VERSION \"\"\nBU_: X\nBO_ 291 Ping: 2 X\nBO_ 2147483649 Pong: 0 X\n";

pub(super) const CAN_HEADER: &[u8] = b"/* Generated from a CAN database. Do not edit. */

#ifndef CAN_H
#define CAN_H

#include <stdbool.h>
#include <stddef.h>
#include <stdint.h>

#ifndef EINVAL
#define EINVAL 22
#endif

/* Message Ping */
#define CAN_PING_FRAME_ID (0x123u)
#define CAN_PING_LENGTH (2u)
#define CAN_PING_IS_EXTENDED (0)

struct can_ping_t {
    uint8_t dummy;
};

int can_ping_pack(uint8_t *dst_p, const struct can_ping_t *src_p, size_t size);

/* Message Pong */
#define CAN_PONG_FRAME_ID (0x1u)
#define CAN_PONG_LENGTH (0u)
#define CAN_PONG_IS_EXTENDED (1)

struct can_pong_t {
    uint8_t dummy;
};

int can_pong_pack(uint8_t *dst_p, const struct can_pong_t *src_p, size_t size);

#endif
";

const CAN_SOURCE: &[u8] = b"/* Generated from a CAN database. Do not edit. */

#include <string.h>

#include \"can.h\"

int can_ping_pack(uint8_t *dst_p, const struct can_ping_t *src_p, size_t size)
{
    (void)src_p;
    if (size < 2u) {
        return (-EINVAL);
    }
    memset(dst_p, 0, 2u);
    return (2);
}

int can_pong_pack(uint8_t *dst_p, const struct can_pong_t *src_p, size_t size)
{
    (void)dst_p;
    (void)src_p;
    (void)size;
    return (0);
}
";

const NIL_SOURCE: &[u8] = b"/* Generated from a CAN database. Do not edit. */

#include <string.h>

#include \"nil.h\"
";

const NIL_HEADER: &[u8] = b"/* Generated from a CAN database. Do not edit. */

#ifndef NIL_H
#define NIL_H

#include <stdbool.h>
#include <stddef.h>
#include <stdint.h>

#ifndef EINVAL
#define EINVAL 22
#endif

#endif
";

const SHOWN_HEADER: &[u8] = b"/* Generated from a CAN database. Do not edit. */

#ifndef MY_BUS_V2_H
#define MY_BUS_V2_H

#include <stdbool.h>
#include <stddef.h>
#include <stdint.h>

#ifndef EINVAL
#define EINVAL 22
#endif

/* Message EngineData1 */
#define MY_BUS_V2_ENGINE_DATA1_FRAME_ID (0x1fffffffu)
#define MY_BUS_V2_ENGINE_DATA1_LENGTH (8u)
#define MY_BUS_V2_ENGINE_DATA1_IS_EXTENDED (1)

struct my_bus_v2_engine_data1_t {
    uint8_t dummy;
};

int my_bus_v2_engine_data1_pack(uint8_t *dst_p, const struct my_bus_v2_engine_data1_t *src_p, size_t size);

#endif
";

const NOT_YET: &[u8] = b"refused 25 NotYet line 0\n";

/// Databases, and the headers that are written.
const HEADERS: &[Row<'static>] = &[
    Row {
        words: "generate_c_source can.dbc",
        files: &[("can.dbc", CAN)],
        failing: &[],
        sink_failing: &[],
        status: Status::Done,
        report: b"can.h\ncan.c\n",
        left: &[
            ("can.h", Some(CAN_HEADER)),
            ("can.c", Some(CAN_SOURCE)),
            ("can.dbc", Some(CAN)),
        ],
    },
    Row {
        words: "generate_c_source nil.dbc",
        files: &[("nil.dbc", b""), ("nil.h", b"old"), ("other.h", b"stays")],
        failing: &[],
        sink_failing: &[],
        status: Status::Done,
        report: b"nil.h\nnil.c\n",
        left: &[
            ("nil.h", Some(NIL_HEADER)),
            ("nil.c", Some(NIL_SOURCE)),
            ("other.h", Some(b"stays")),
        ],
    },
    Row {
        words: "generate_c_source in/.a/My-Bus.v2.dbc",
        files: &[(
            "in/.a/My-Bus.v2.dbc",
            b"\xef\xbb\xbfBO_ 2684354559 EngineData1: 8.0 BO_\r\nBO_ 3221225472 VECTOR__INDEPENDENT_SIG_MSG: 0 Vector__XXX",
        )],
        failing: &[],
        sink_failing: &[],
        status: Status::Done,
        report: b"my_bus_v2.h\nmy_bus_v2.c\n",
        left: &[("my_bus_v2.h", Some(SHOWN_HEADER))],
    },
];

/// Files of a kind that is not read yet, whatever their texts.
const REFUSED: &[(&str, &[u8])] = &[("pump.sym", CAN), ("pump.SyM", b"")];

const WRONG_WORDS: &[&str] = &[
    "",
    "generate_c_source",
    "generate_c_source can.dbc can.dbc",
    "generate can.dbc",
    "can.dbc generate_c_source",
    "encode can.dbc",
    "encode can.dbc Nope",
    "decode can.dbc 497 00",
    "decode can.dbc 291 0",
];

/// The database, and the header of an earlier run.
const CAN_AND_OLD: &[(&str, &[u8])] = &[("can.dbc", CAN), ("can.h", b"old")];

const CAN_LEFT: &[(&str, Option<&[u8]>)] = &[("can.dbc", Some(CAN)), ("can.h", Some(b"old"))];

/// Files and sinks that fail.
const FAILURES: &[Row<'static>] = &[
    Row {
        words: "generate_c_source absent.dbc",
        files: &[("can.dbc", CAN)],
        failing: &[],
        sink_failing: &[],
        status: Status::FileFault,
        report: b"",
        left: &[("absent.h", None), ("absent.c", None)],
    },
    Row {
        words: "generate_c_source can.dbc",
        files: CAN_AND_OLD,
        failing: &[Failing { call: 2, keep: 10 }],
        sink_failing: &[],
        status: Status::FileFault,
        report: b"",
        left: &[("can.h", Some(b"/* Generat")), ("can.c", None)],
    },
    Row {
        words: "generate_c_source can.dbc",
        files: CAN_AND_OLD,
        failing: &[Failing { call: 3, keep: 10 }],
        sink_failing: &[],
        status: Status::FileFault,
        report: b"",
        left: &[("can.h", Some(CAN_HEADER)), ("can.c", Some(b"/* Generat"))],
    },
    Row {
        words: "generate_c_source can.dbc",
        files: CAN_AND_OLD,
        failing: &[Failing { call: 1, keep: 10 }],
        sink_failing: &[],
        status: Status::FileFault,
        report: b"",
        left: &[("can.h", Some(b"old"))],
    },
    Row {
        words: "generate_c_source can.dbc",
        files: CAN_AND_OLD,
        failing: &[],
        sink_failing: &[Failing { call: 1, keep: 4 }],
        status: Status::OutFault,
        report: b"can.",
        left: &[("can.h", Some(CAN_HEADER)), ("can.c", Some(CAN_SOURCE))],
    },
];

#[test]
fn headers_are_written(rt: HostRuntime) -> Result<(), Fail> {
    check_all(&rt, rt.alloc(), HEADERS)
}

#[test]
fn kinds_of_files_are_refused(rt: HostRuntime) -> Result<(), Fail> {
    for &(file, text) in REFUSED {
        let words = format!(in rt.alloc(); "generate_c_source {file}")?;
        let files = [(file, text)];
        let left = [(file, Some(text))];
        let row = plain(&words, &files, Status::Refused, NOT_YET, &left);
        check(&rt, rt.alloc(), &row)?;
    }
    Ok(())
}

#[test]
fn words_are_wrong(rt: HostRuntime) -> Result<(), Fail> {
    let usage = b"cantoolc: wrong words\n";
    for words in WRONG_WORDS {
        let row = plain(words, CAN_AND_OLD, Status::Usage, usage, CAN_LEFT);
        check(&rt, rt.alloc(), &row)?;
    }
    Ok(())
}

#[test]
fn the_outside_fails(rt: HostRuntime) -> Result<(), Fail> {
    check_all(&rt, rt.alloc(), FAILURES)
}

/// A text of so many blanks.
fn blanks(alloc: Global, count: usize) -> Result<Text, Fail> {
    let bytes = vec![in alloc; b' '; count]?;
    Ok(Text::copy_of(alloc, bytes.as_slice())?)
}

#[test]
fn the_limit_is_exact(rt: HostRuntime) -> Result<(), Fail> {
    let alloc = rt.alloc();
    let mut words = Vec::new(alloc);
    for word in ["generate_c_source", "nil.dbc"] {
        words.push(Word::new(String::from_str(alloc, word)?))?;
    }
    for (length, status, report) in [
        (8_388_608, Status::Done, b"nil.h\nnil.c\n".as_slice()),
        (8_388_609, Status::Refused, b"refused 5 TooLarge line 0\n"),
    ] {
        let entries = [Entry {
            name: Text::copy_of(alloc, b"nil.dbc")?,
            bytes: blanks(alloc, length)?,
        }];
        let mut files = MemoryFiles::new(alloc, &entries, 4096, &[])?;
        let mut out = MemorySink::new(alloc, 100, &[])?;
        assert_eq!(rt; run(alloc, &words, &mut files, &mut out), status);
        assert_eq!(rt; out.bytes(), report);
    }
    Ok(())
}
