//! Rows of `check HEADER SOURCE`.
use crate::rows::CAN_HEADER;
use crate::table::{Row, check, check_all, plain};
use cg_out::Failing;
use cli_tool::Status;
use std::test::Fail;

/// Pairs of texts without a fault.
const FAULTLESS: &[(&[u8], &[u8])] = &[
    (CAN_HEADER, b"#include \"h.h\""),
    (b"", b"int f(void) { return 10 - 4 - 3; }"),
    (
        b"",
        b"int f(void) { if (1) if (0) return 1; else return 2; return 3; }",
    ),
    (
        b"",
        b"int f(int v) { switch (v) { case - + (- 1): return 1; default: return 2; } return 3; }",
    ),
    (b"", b"#include \"h.h\"\n"),
    (
        b"",
        b"int f(void) { return (((((((((((((((((((((((((((((((((((((((((((((((((((((((((((((((1))))))))))))))))))))))))))))))))))))))))))))))))))))))))))))))); }",
    ),
    // Names of their own scopes, and equal prototypes.
    (
        b"int f(int a);\n",
        b"#include \"h.h\"\n#include \"h.h\"\nint f(int a) { { int f = a; a = f; } return a; }\nint f(int a);",
    ),
    (
        b"",
        b"struct f { int f; };\nint f(struct f *p) { return p->f; }",
    ),
    (
        b"",
        b"#include <stdint.h>\n#include <string.h>\nint f(uint8_t *p, size_t n) { memset(p, 0, n); return p == NULL; }",
    ),
];

/// A header, a source, and the report of their first fault.
const FIRST_FAULTS: &[(&[u8], &[u8], &[u8])] = &[
    // Tokens.
    (b"", b"@", b"refused 40 BadToken source line 1\n"),
    (b"", b"\\", b"refused 41 Splice source line 1\n"),
    (b"", b"/*", b"refused 42 OpenComment source line 1\n"),
    (b"\n\n/*", b"", b"refused 42 OpenComment header line 3\n"),
    (
        b"#if 1\n#endif\n",
        b"#include \"h.h\"\n@",
        b"refused 40 BadToken source line 2\n",
    ),
    // Directives.
    (
        b"",
        b"#pragma x",
        b"refused 43 BadDirective source line 1\n",
    ),
    (
        b"#if 1\n#endif\n",
        b"#include \"h.h\"\n",
        b"refused 43 BadDirective header line 1\n",
    ),
    (
        b"",
        b"#include <stdio.h>",
        b"refused 44 UnknownHeader source line 1\n",
    ),
    (
        b"",
        b"#include \"in/h.h\"\n",
        b"refused 44 UnknownHeader source line 1\n",
    ),
    (b"", b"#define A B", b"refused 45 MacroBody source line 1\n"),
    (
        b"",
        b"#define A 1\n#define A 2\n",
        b"refused 46 Redefined source line 2\n",
    ),
    (b"", b"#endif", b"refused 47 Unbalanced source line 1\n"),
    (b"", b"#ifdef A", b"refused 47 Unbalanced source line 1\n"),
    // Forms.
    (
        b"",
        b"int f(void) { return 1 }",
        b"refused 48 Syntax source line 1\n",
    ),
    (
        b"",
        b"int f(int v) { switch (v) { case - (1)\n: case -\n- v: return 1; } return 0; }",
        b"refused 48 Syntax source line 3\n",
    ),
    (
        b"",
        b"int f(void) { return ((((((((((((((((((((((((((((((((((((((((((((((((((((((((((((((((1)))))))))))))))))))))))))))))))))))))))))))))))))))))))))))))))); }",
        b"refused 49 TooDeep source line 1\n",
    ),
    // Names and types.
    (
        b"",
        b"int f(void) { return x; }",
        b"refused 50 UnknownName source line 1\n",
    ),
    (
        b"",
        b"int f(void) { { int x; x = 1; }\nreturn x; }",
        b"refused 50 UnknownName source line 2\n",
    ),
    (
        b"",
        b"int g(void);\nint f(void) { return g(); }",
        b"refused 50 UnknownName source line 2\n",
    ),
    (
        b"",
        b"#include <stdint.h>\nint f(uint8_t *p) { return p; }",
        b"refused 51 TypeMismatch source line 2\n",
    ),
    (
        b"",
        b"int g(void) { return 1; }\nint f(void) { int g; g = 2;\nreturn g(); }",
        b"refused 51 TypeMismatch source line 3\n",
    ),
    (
        b"",
        b"#include <stdint.h>\nvoid f(const uint8_t *p) { p[0] = 1; }",
        b"refused 52 ConstWrite source line 2\n",
    ),
    (
        b"",
        b"int f(void) { return 1; }\nint f(void) { return 1; }",
        b"refused 53 Redeclared source line 2\n",
    ),
    (
        b"",
        b"int f(int a);\nint f(int b);",
        b"refused 53 Redeclared source line 2\n",
    ),
    (
        b"int f(void) { return 1; }",
        b"#include \"h.h\"\n#include \"h.h\"\n",
        b"refused 53 Redeclared header line 1\n",
    ),
    (
        b"",
        b"#include <stdint.h>\nint g(uint8_t *p) { return 1; }\nint f(uint8_t *p) { return g(p); }",
        b"refused 54 ImpureCall source line 3\n",
    ),
    (
        b"",
        b"int h(void) { return 1; }\nint g(void) { return h(); }\nint f(void) { return g(); }",
        b"refused 55 DeepCall source line 3\n",
    ),
    (
        b"",
        b"int f(int v) { switch (v) { case 1: break; case 1: break; } return 0; }",
        b"refused 56 DuplicateCase source line 1\n",
    ),
    (
        b"",
        b"int _f(void) { return 1; }",
        b"refused 57 ReservedName source line 1\n",
    ),
    // size_t has 32 bits under ILP32 alone: a fault of that model ahead of one of both, and behind it.
    (
        b"",
        b"#include <stddef.h>\nint f(size_t v) { switch (v) { case 1: case 4294967297: break; } return 0; }\nint g(void) { return x; }",
        b"refused 56 DuplicateCase source line 2\n",
    ),
    (
        b"",
        b"#include <stddef.h>\nint g(void) { return x; }\nint f(size_t v) { switch (v) { case 1: case 4294967297: break; } return 0; }",
        b"refused 50 UnknownName source line 2\n",
    ),
    // -0xFFFFFFFFl is 1 under ILP32: a fault of LP64 alone, and behind it one of ILP32 alone.
    (
        b"",
        b"#include <stdint.h>\nint f(uint64_t v) { switch (v) { case -0xFFFFFFFFl: case 18446744069414584321u: break; } return 0; }",
        b"refused 56 DuplicateCase source line 2\n",
    ),
    (
        b"",
        b"#include <stdint.h>\nint f(uint64_t v) { switch (v) { case -0xFFFFFFFFl: case 18446744069414584321u: break; } return 0; }\nint g(uint64_t v) { switch (v) { case -0xFFFFFFFFl: case 1: break; } return 0; }",
        b"refused 56 DuplicateCase source line 3\n",
    ),
];

/// Files and sinks that fail, and wrong words.
const FAILURES: &[Row<'static>] = &[
    Row {
        words: "check h.h absent.c",
        files: EMPTY_TEXTS,
        failing: &[],
        sink_failing: &[],
        status: Status::FileFault,
        report: b"",
        left: EMPTY_LEFT,
    },
    Row {
        words: "check h.h t.c",
        files: EMPTY_TEXTS,
        failing: &[Failing { call: 2, keep: 0 }],
        sink_failing: &[],
        status: Status::FileFault,
        report: b"",
        left: EMPTY_LEFT,
    },
    Row {
        words: "check h.h t.c",
        files: EMPTY_TEXTS,
        failing: &[],
        sink_failing: &[Failing { call: 1, keep: 1 }],
        status: Status::OutFault,
        report: b"o",
        left: EMPTY_LEFT,
    },
    Row {
        words: "check h.h",
        files: EMPTY_TEXTS,
        failing: &[],
        sink_failing: &[],
        status: Status::Usage,
        report: b"cantoolc: wrong words\n",
        left: EMPTY_LEFT,
    },
];

const EMPTY_TEXTS: &[(&str, &[u8])] = &[("h.h", b""), ("t.c", b"")];

const EMPTY_LEFT: &[(&str, Option<&[u8]>)] = &[("h.h", Some(b"")), ("t.c", Some(b""))];

#[test]
fn texts_without_a_fault_are_ok(rt: HostRuntime) -> Result<(), Fail> {
    for &(header, source) in FAULTLESS {
        let files = [("in/h.h", header), ("t.c", source)];
        let left = [("in/h.h", Some(header)), ("t.c", Some(source))];
        let row = plain("check in/h.h t.c", &files, Status::Done, b"ok\n", &left);
        check(&rt, rt.alloc(), &row)?;
    }
    Ok(())
}

#[test]
fn the_first_fault_is_told(rt: HostRuntime) -> Result<(), Fail> {
    for &(header, source, report) in FIRST_FAULTS {
        let files = [("in/h.h", header), ("t.c", source)];
        let left = [("in/h.h", Some(header)), ("t.c", Some(source))];
        let row = plain("check in/h.h t.c", &files, Status::Refused, report, &left);
        check(&rt, rt.alloc(), &row)?;
    }
    Ok(())
}

#[test]
fn a_check_fails_with_the_outside(rt: HostRuntime) -> Result<(), Fail> {
    check_all(&rt, rt.alloc(), FAILURES)
}
