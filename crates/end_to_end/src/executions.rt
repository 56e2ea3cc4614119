//! Rows of `exec HEADER SOURCE MODEL FUNCTION ARG..`.
use crate::table::{Row, check, check_all, plain};
use cg_out::Failing;
use cli_tool::Status;
use std::test::Fail;

/// The first texts that are executed: of integers, of bytes, of a struct.
const ADD: &[u8] = b"int f(int a) { return a + 1; }";

const SHIFTS: &[u8] = b"int f(void)\n{\n    return (1ul << 32) != 0ul;\n}\n";

const TOP: &[u8] = b"#include <stdint.h>\nint g(uint8_t v)\n{\n    return v << 24;\n}\n";

const STORE: &[u8] = b"#include <stdint.h>\nvoid f(uint8_t *p) { p[1] = 300; }";

const LOAD: &[u8] = b"#include <stdint.h>\nint f(const uint8_t *p, int i) {\n return 1 +\n p[i]; }";

const JOIN: &[u8] = b"#include <stdint.h>\nvoid f(uint8_t *p) {\n p[0]\n |=\n 1; }";

const FILL: &[u8] =
    b"#include <stdint.h>\n#include <string.h>\nvoid f(uint8_t *p, int b, size_t n) {\n memset(p, b, n); }";

const PAIR: &[u8] =
    b"struct pair { unsigned char a; int b; };\nint f(struct pair *p) {\n return\n p->a; }";

const NULLS: &[u8] =
    b"#include <stdint.h>\n#include <stddef.h>\nint f(uint8_t *p) { (void)p; return 0; }\nint g(uint8_t *p) { return\n p == NULL; }\nint h(uint8_t *p) { return NULL != p; }";

const CASES: &[u8] =
    b"int f(int v) { int n = 0; switch (v) { case 1: n += 1; default: n += 10; case 2: n += 100; break; case 3: n += 1000; } return n; }\nint g(unsigned char v) { switch (v) { case 1: switch (v) { default: break; } return 7; } return 8; }\nint h(int v) { switch (v) { case 4: { int n = 5; if (n) break; } return 1; } return 2; }";

const CALLS: &[u8] =
    b"static int twice(int a) { return a + a; }\nint f(int a) { return twice(1 + twice(a)); }\nvoid nothing(void) { ; }\nint g(void) { nothing(); return twice(\n2147483647); }";

const LAZY: &[u8] =
    b"int f(int a) { return a != 0 && 1 << (a - 1); }\nint g(int a) { return a != 0 || 1 << (a - 1); }";

const LOCALS: &[u8] =
    b"int f(int a) { int b = a; { int a = b + 1; b = a; a = 50; } return a + b; }\nint g(void) { int x = x; return x; }";

const SIGNS: &[u8] =
    b"int f(int a) { return\n -a; }\nint g(int a) { return ~a; }\nint h(int a) { return !a + +a; }";

const TYPES: &[u8] =
    b"#include <stdint.h>\n#include <stdbool.h>\nint8_t f(int a) { return a; }\nint g(uint8_t a, bool b) { return (uint16_t)(a - 2) + b; }\nunsigned long h(long a) { return a; }";

/// Functions that end as they should: header, source, model, function and arguments, report.
const RETURNED: &[(&[u8], &[u8], &str, &[u8])] = &[
    (
        b"",
        b"int f(void) { return 10 - 4 - 3; }",
        "lp64 f",
        b"return 3\n",
    ),
    (b"", SHIFTS, "lp64 f", b"return 1\n"),
    (b"", TOP, "ilp32 g int:127", b"return 2130706432\n"),
    (b"", TOP, "lp64 g int:127", b"return 2130706432\n"),
    (b"", STORE, "lp64 f raw:2", b"return\narg 1: --2c\n"),
    (
        b"",
        LOAD,
        "lp64 f bytes:0aFF int:1",
        b"return 256\narg 1: 0aff\n",
    ),
    (b"", JOIN, "lp64 f bytes:F0", b"return\narg 1: f1\n"),
    (
        b"",
        FILL,
        "lp64 f raw:3 int:258 int:2",
        b"return\narg 1: 0202--\n",
    ),
    (
        b"",
        FILL,
        "ilp32 f bytes: int:0 int:0",
        b"return\narg 1: \n",
    ),
    (
        b"",
        FILL,
        "ilp32 f raw:-0 int:0 int:0",
        b"return\narg 1: \n",
    ),
    (
        PAIR,
        b"#include \"h.h\"",
        "lp64 f struct:a=5",
        b"return 5\narg 1: a=5 b=?\n",
    ),
    (
        b"",
        b"#include <stddef.h>\nstruct pair { unsigned char a; int b; };\nint g(struct pair *p) { p->b = p->a; p->a = 257; return p == NULL; }",
        "lp64 g struct:b=-7,a=255",
        b"return 0\narg 1: a=1 b=255\n",
    ),
    (b"", NULLS, "lp64 f stray", b"return 0\n"),
    (b"", NULLS, "lp64 g null", b"return 1\n"),
    (b"", NULLS, "lp64 h raw:1", b"return 1\narg 1: --\n"),
    (b"", CASES, "lp64 f int:1", b"return 111\n"),
    (b"", CASES, "lp64 f int:2", b"return 100\n"),
    (b"", CASES, "lp64 f int:3", b"return 1000\n"),
    (b"", CASES, "lp64 f int:9", b"return 110\n"),
    (b"", CASES, "lp64 g int:1", b"return 7\n"),
    (b"", CASES, "lp64 g int:2", b"return 8\n"),
    (b"", CASES, "lp64 h int:4", b"return 2\n"),
    (b"", CALLS, "lp64 f int:3", b"return 14\n"),
    (b"", CALLS, "lp64 twice int:-0021", b"return -42\n"),
    (b"", CALLS, "lp64 nothing", b"return\n"),
    (b"", LAZY, "lp64 f int:0", b"return 0\n"),
    (b"", LAZY, "lp64 f int:31", b"return 1\n"),
    (b"", LAZY, "lp64 g int:-1", b"return 1\n"),
    (
        b"",
        b"unsigned f(unsigned a) { return a + 1u; }",
        "lp64 f int:4294967295",
        b"return 0\n",
    ),
    (b"", LOCALS, "lp64 f int:3", b"return 7\n"),
    (b"", SIGNS, "lp64 g int:5", b"return -6\n"),
    (b"", SIGNS, "lp64 h int:-4", b"return -4\n"),
    (b"", TYPES, "lp64 f int:200", b"return -56\n"),
    (b"", TYPES, "lp64 g int:1 int:1", b"return 65536\n"),
    (b"", TYPES, "ilp32 h int:-1", b"return 4294967295\n"),
    (
        b"",
        TYPES,
        "lp64 h int:-1",
        b"return 18446744073709551615\n",
    ),
];

/// Undefined behaviour of each kind, at each place that shows it.
const UNDEFINED: &[(&[u8], &[u8], &str, &[u8])] = &[
    (
        b"",
        ADD,
        "ilp32 f int:2147483647",
        b"undefined Overflow source line 1\n",
    ),
    (
        b"",
        b"int f(void) { int x; return x; }",
        "lp64 f",
        b"undefined Indeterminate source line 1\n",
    ),
    (
        b"",
        b"int f(void) { int x;\n(void)\nx; return 0; }",
        "lp64 f",
        b"undefined Indeterminate source line 3\n",
    ),
    (
        b"",
        STORE,
        "lp64 f raw:1",
        b"undefined OutOfBounds source line 2\n",
    ),
    (
        b"",
        STORE,
        "lp64 f null",
        b"undefined NullUse source line 2\n",
    ),
    (
        b"",
        STORE,
        "lp64 f stray",
        b"undefined OutOfBounds source line 2\n",
    ),
    (
        b"",
        b"int f(int a) { if (a) { return 1; } }",
        "lp64 f int:0",
        b"undefined NoValue source line 1\n",
    ),
    (
        b"",
        b"int f(int a) { if (a) { return 1; } \n}",
        "lp64 f int:0",
        b"undefined NoValue source line 2\n",
    ),
    (
        b"",
        b"int f(int a) { return a >> 1; }",
        "lp64 f int:-2",
        b"undefined NegativeRightShift source line 1\n",
    ),
    (
        b"",
        b"int f(int a) { return a >> 0; }",
        "lp64 f int:-1",
        b"undefined NegativeRightShift source line 1\n",
    ),
    (
        b"",
        b"int f(int a) { return a << 0; }",
        "lp64 f int:-1",
        b"undefined ShiftOverflow source line 1\n",
    ),
    (
        b"",
        b"int f(int a) { return a << 32; }",
        "lp64 f int:-1",
        b"undefined ShiftCount source line 1\n",
    ),
    (
        b"",
        b"int f(int a) { return 1u <<\n a; }",
        "lp64 f int:32",
        b"undefined ShiftCount source line 1\n",
    ),
    (
        b"",
        SHIFTS,
        "ilp32 f",
        b"undefined ShiftCount source line 3\n",
    ),
    (
        b"",
        TOP,
        "ilp32 g int:255",
        b"undefined ShiftOverflow source line 4\n",
    ),
    (
        b"",
        TOP,
        "lp64 g int:255",
        b"undefined ShiftOverflow source line 4\n",
    ),
    (
        b"",
        LOAD,
        "lp64 f raw:1 int:0",
        b"undefined Indeterminate source line 4\n",
    ),
    (
        b"",
        LOAD,
        "lp64 f bytes:00 int:-1",
        b"undefined OutOfBounds source line 4\n",
    ),
    (
        b"",
        LOAD,
        "lp64 f bytes:00 int:1",
        b"undefined OutOfBounds source line 4\n",
    ),
    (
        b"",
        LOAD,
        "lp64 f null int:1",
        b"undefined NullUse source line 4\n",
    ),
    (
        b"",
        JOIN,
        "lp64 f raw:1",
        b"undefined Indeterminate source line 3\n",
    ),
    (
        b"",
        b"void f(int a) {\n a\n +=\n 1; }",
        "lp64 f int:2147483647",
        b"undefined Overflow source line 3\n",
    ),
    (
        b"",
        FILL,
        "lp64 f null int:0 int:0",
        b"undefined NullUse source line 4\n",
    ),
    (
        b"",
        FILL,
        "lp64 f stray int:0 int:0",
        b"undefined OutOfBounds source line 4\n",
    ),
    (
        b"",
        FILL,
        "lp64 f raw:2 int:0 int:3",
        b"undefined OutOfBounds source line 4\n",
    ),
    (
        PAIR,
        b"#include \"h.h\"",
        "lp64 f struct:b=1",
        b"undefined Indeterminate header line 4\n",
    ),
    (
        PAIR,
        b"#include \"h.h\"",
        "lp64 f null",
        b"undefined NullUse header line 4\n",
    ),
    (
        PAIR,
        b"#include \"h.h\"",
        "lp64 f stray",
        b"undefined OutOfBounds header line 4\n",
    ),
    (
        b"",
        NULLS,
        "lp64 g stray",
        b"undefined OutOfBounds source line 5\n",
    ),
    (b"", CALLS, "lp64 g", b"undefined Overflow source line 1\n"),
    (
        b"",
        LAZY,
        "lp64 f int:33",
        b"undefined ShiftCount source line 1\n",
    ),
    (
        b"",
        LAZY,
        "lp64 g int:0",
        b"undefined ShiftCount source line 2\n",
    ),
    (
        b"",
        LOCALS,
        "lp64 g",
        b"undefined Indeterminate source line 2\n",
    ),
    (
        b"",
        SIGNS,
        "lp64 f int:-2147483648",
        b"undefined Overflow source line 2\n",
    ),
];

/// Words that are wrong: no function of the unit, or no arguments of it.
const WRONG: &[(&[u8], &[u8], &str)] = &[
    (b"", TOP, "lp64 g int:256"),
    (b"", TOP, "lp64 g int:-1"),
    (b"", TOP, "lp64 h"),
    (b"", TOP, "lp64 h int:1"),
    (b"", TOP, "lp64 g"),
    (b"", TOP, "lp64 g int:1 int:1"),
    (b"", TOP, "lp64"),
    (b"", TOP, "LP64 g int:1"),
    (b"", TOP, "i16 g int:1"),
    (b"", TOP, "lp64 g int:"),
    (b"", TOP, "lp64 g int:-"),
    (b"", TOP, "lp64 g int:+1"),
    (b"", TOP, "lp64 g int:0x1"),
    (b"", TOP, "lp64 g 1"),
    (b"", TOP, "lp64 g int:18446744073709551616"),
    (b"", TOP, "lp64 g null"),
    (b"", TOP, "lp64 g raw:1"),
    (b"", TYPES, "lp64 g int:1 int:2"),
    (b"", STORE, "lp64 f int:0"),
    (b"", STORE, "lp64 f NULL"),
    (b"", STORE, "lp64 f bytes:0"),
    (b"", STORE, "lp64 f bytes:0g"),
    (b"", STORE, "lp64 f raw:"),
    (b"", STORE, "lp64 f raw:-1"),
    (b"", STORE, "lp64 f raw:65537"),
    (b"", STORE, "lp64 f struct:"),
    (PAIR, b"#include \"h.h\"", "lp64 f bytes:00"),
    (PAIR, b"#include \"h.h\"", "lp64 f struct:c=1"),
    (PAIR, b"#include \"h.h\"", "lp64 f struct:a=256"),
    (PAIR, b"#include \"h.h\"", "lp64 f struct:a=1,a=1"),
    (PAIR, b"#include \"h.h\"", "lp64 f struct:a=1,"),
    (PAIR, b"#include \"h.h\"", "lp64 f struct:a"),
    (PAIR, b"#include \"h.h\"", "lp64 f struct:a="),
];

const REFUSED: &[u8] = b"refused 50 UnknownName source line 1\n";

const ABSENT: &[Row<'static>] = &[
    Row {
        words: "exec h.h absent.c lp64 f int:1",
        files: &[("h.h", b""), ("t.c", ADD)],
        failing: &[],
        sink_failing: &[],
        status: Status::FileFault,
        report: b"",
        left: &[("h.h", Some(b""))],
    },
    Row {
        words: "exec h.h t.c lp64 f int:1",
        files: &[("h.h", b""), ("t.c", ADD)],
        failing: &[],
        sink_failing: &[Failing { call: 1, keep: 3 }],
        status: Status::OutFault,
        report: b"ret",
        left: &[("h.h", Some(b""))],
    },
    // A fault of the texts comes before a function that is not there.
    Row {
        words: "exec h.h t.c lp64 g",
        files: &[("h.h", b""), ("t.c", b"int f(void) { return x; }")],
        failing: &[],
        sink_failing: &[],
        status: Status::Refused,
        report: REFUSED,
        left: &[("h.h", Some(b""))],
    },
];

#[test]
fn functions_return(rt: HostRuntime) -> Result<(), Fail> {
    for &(header, source, call, report) in RETURNED {
        let words = format!(in rt.alloc(); "exec in/h.h t.c {call}")?;
        let files = [("in/h.h", header), ("t.c", source)];
        let left = [("in/h.h", Some(header)), ("t.c", Some(source))];
        let row = plain(&words, &files, Status::Done, report, &left);
        check(&rt, rt.alloc(), &row)?;
    }
    Ok(())
}

#[test]
fn undefined_behaviour_is_named(rt: HostRuntime) -> Result<(), Fail> {
    for &(header, source, call, report) in UNDEFINED {
        let words = format!(in rt.alloc(); "exec in/h.h t.c {call}")?;
        let files = [("in/h.h", header), ("t.c", source)];
        let left = [("in/h.h", Some(header)), ("t.c", Some(source))];
        let row = plain(&words, &files, Status::Negative, report, &left);
        check(&rt, rt.alloc(), &row)?;
    }
    Ok(())
}

#[test]
fn arguments_are_wrong(rt: HostRuntime) -> Result<(), Fail> {
    let usage = b"cantoolc: wrong words\n";
    for &(header, source, call) in WRONG {
        let words = format!(in rt.alloc(); "exec in/h.h t.c {call}")?;
        let files = [("in/h.h", header), ("t.c", source)];
        let left = [("in/h.h", Some(header)), ("t.c", Some(source))];
        let row = plain(&words, &files, Status::Usage, usage, &left);
        check(&rt, rt.alloc(), &row)?;
    }
    Ok(())
}

#[test]
fn an_execution_fails_with_the_outside(rt: HostRuntime) -> Result<(), Fail> {
    check_all(&rt, rt.alloc(), ABSENT)
}
