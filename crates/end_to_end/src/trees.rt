//! Tables of C: a text, and beside it its trees or its first fault.
use c_mean::{CFault, Item, Place, Stmt, Unit};
use c_shown::{Line, unit_of, write_items, write_stmts};
use cg_out::Memory;
use std::alloc::Global;

/// The column of an offset, counted from 1.
fn column_of(text: &[u8], start: u32) -> u32 {
    let mut column = 1u32;
    for byte in text.iter().take(start as usize) {
        column = if *byte == b'\n' {
            1
        } else {
            column.saturating_add(1)
        };
    }
    column
}

/// A fault, as `48 Syntax source 2:5`, with its line and column.
fn write_fault(
    alloc: Global,
    line: &mut Line,
    fault: CFault,
    header: &[u8],
    source: &[u8],
) -> Result<(), Memory> {
    let CFault::Fault { kind, place } = fault else {
        return Err(Memory);
    };
    let Place { line: row, .. } = place;
    let (file, text) = if place.header {
        ("header", header)
    } else {
        ("source", source)
    };
    let column = column_of(text, place.start);
    let spelled = format!(in alloc; "{} {} {file} {row}:{column}", kind.number(), kind.name())?;
    line.put(spelled.as_bytes())
}

/// The items of a source and of a header `h.h`, or the first fault.
pub(super) fn items_of(alloc: Global, header: &[u8], source: &[u8]) -> Result<Vec<u8>, Memory> {
    let mut line = Line::new(alloc, false);
    match unit_of(alloc, "h.h", header, source) {
        Ok(unit) => write_items(&mut line, unit.items.items())?,
        Err(fault) => write_fault(alloc, &mut line, fault, header, source)?,
    }
    Ok(line.into_bytes())
}

/// The statements of the one function of a unit.
fn body_of(unit: &Unit) -> &[Stmt] {
    match unit.items.items() {
        [Item::Function(function)] => match &function.body {
            Some(body) => body.items(),
            None => &[],
        },
        _ => &[],
    }
}

/// The statements in the second line of a function, or the first fault.
fn statements_of(alloc: Global, text: &[u8], with_places: bool) -> Result<Vec<u8>, Memory> {
    let mut source = Vec::new(alloc);
    for piece in [b"int f(int a) {\n".as_slice(), text, b"\n}"] {
        source.extend_from_slice(piece)?;
    }
    let mut line = Line::new(alloc, with_places);
    match unit_of(alloc, "h.h", b"", &source) {
        Ok(unit) => write_stmts(&mut line, body_of(&unit))?,
        Err(fault) => write_fault(alloc, &mut line, fault, b"", &source)?,
    }
    Ok(line.into_bytes())
}

/// Statements, and their trees or their first fault.
const STATEMENTS: &[(&str, &str)] = &[
    // statements
    ("", ""),
    ("int x;", "(declare int x)"),
    ("unsigned long x = 5ul;", "(declare unsigned long x 5ul)"),
    ("long long x = -1ll;", "(declare long long x (- 1ll))"),
    ("a = 1;", "(= a 1)"),
    (
        "a |= 1; a &= 2; a ^= 3; a += 4; a -= 5; a <<= 6; a >>= 7;",
        "(|= a 1) (&= a 2) (^= a 3) (+= a 4) (-= a 5) (<<= a 6) (>>= a 7)",
    ),
    ("p->f = a;", "(= (-> p f) a)"),
    ("p[a + 1] |= 0u;", "(|= (at p (+ a 1)) 0u)"),
    ("f(); f(1, a);", "(call f) (call f 1 a)"),
    ("(void)a; ;", "(discard a) (empty)"),
    (
        "{} { a = 1; { ; } }",
        "(block) (block (= a 1) (block (empty)))",
    ),
    ("return; return 0;", "(return) (return 0)"),
    (
        "if (a) f(1); else return -2;",
        "(if a (call f 1) (return (- 2)))",
    ),
    (
        "if (1) if (0) return 1; else return 2; return 3;",
        "(if 1 (if 0 (return 1) (return 2))) (return 3)",
    ),
    (
        "if (1) if (0) return 1; else if (2) return 2; else return 3; return 4;",
        "(if 1 (if 0 (return 1) (if 2 (return 2) (return 3)))) (return 4)",
    ),
    (
        "if (1) if (0) { if (2) return 1; } else return 2; else return 3; return 4;",
        "(if 1 (if 0 (block (if 2 (return 1))) (return 2)) (return 3)) (return 4)",
    ),
    (
        "switch (a) { case 1: case -2: f(a); break; default: return 2; }",
        "(switch a (case 1) (case (- 2)) (call f a) (break) (default) (return 2))",
    ),
    ("switch (a) { }", "(switch a)"),
    (
        "switch (a) { case - + (- 1): { int x; } if (a) break; }",
        "(switch a (case (- (+ (group (- 1))))) (block (declare int x)) (if a (break)))",
    ),
    // precedence and grouping
    ("return a - b - c;", "(return (- (- a b) c))"),
    ("return -a - b;", "(return (- (- a) b))"),
    ("return a < b == c;", "(return (== (< a b) c))"),
    ("return a == b < c;", "(return (== a (< b c)))"),
    (
        "return a || b && c | d ^ e & f;",
        "(return (|| a (&& b (| c (^ d (& e f))))))",
    ),
    (
        "return a & b ^ c | d && e || f;",
        "(return (|| (&& (| (^ (& a b) c) d) e) f))",
    ),
    (
        "return a != b >= c << 2 + 1 > 0;",
        "(return (!= a (> (>= b (<< c (+ 2 1))) 0)))",
    ),
    (
        "return (a - (b - c)) >> 1 <= 2;",
        "(return (<= (>> (group (- a (group (- b c)))) 1) 2))",
    ),
    (
        "return (unsigned long long) - p->f + (short) a;",
        "(return (+ (cast unsigned long long (- (-> p f))) (cast short a)))",
    ),
    ("return ~ ! + a;", "(return (~ (! (+ a))))"),
    (
        "return - ~ ! (long) - (unsigned char) x - (int) ! y;",
        "(return (- (- (~ (! (cast long (- (cast unsigned char x)))))) (cast int (! y))))",
    ),
    (
        "return -(signed char)(-a);",
        "(return (- (cast signed char (group (- a)))))",
    ),
    (
        "return p[i + 1] != 0x1F;",
        "(return (!= (at p (+ i 1)) 31))",
    ),
    ("return f();", "(return (call f))"),
    (
        "return f(a, g(b, (c))) - 1;",
        "(return (- (call f a (call g b (group c))) 1))",
    ),
    // faults of statements
    ("return 1", "48 Syntax source 2:1"),
    ("a = 1;\n break;", "48 Syntax source 3:2"),
    ("switch (a) { int x; }", "48 Syntax source 2:14"),
    ("switch (a) { case a: ; }", "48 Syntax source 2:19"),
    ("if 1; return 1;", "48 Syntax source 2:1"),
    ("if (1)", "48 Syntax source 3:1"),
    ("else ;", "48 Syntax source 2:1"),
    ("1 2;", "48 Syntax source 2:1"),
    ("int 1;", "48 Syntax source 2:1"),
    ("goto a;", "48 Syntax source 2:1"),
    // faults of expressions
    ("return a + < b;", "48 Syntax source 2:12"),
    ("return a -;", "48 Syntax source 2:11"),
    ("return a b;", "48 Syntax source 2:8"),
    ("f(a,);", "48 Syntax source 2:5"),
    ("return f(a, b c, d e);", "48 Syntax source 2:13"),
    ("return -(a)b;", "48 Syntax source 2:9"),
];

#[test]
fn statements(rt: HostRuntime) -> Result<(), Memory> {
    for &(text, wanted) in STATEMENTS {
        let found = statements_of(rt.alloc(), text.as_bytes(), false)?;
        assert!(rt; found.as_slice() == wanted.as_bytes(), "of {text}");
    }
    Ok(())
}

/// The function's second line begins at offset 15.
const PLACES: &[(&str, &str)] = &[
    (
        "return 10 - 4 - 3;",
        "(return@15 (-@29 (-@25 10@22 4@27) 3@31))",
    ),
    (
        "if (a) ; else if (1) ;",
        "(if@15 a@19 (empty@22) (if@29 1@33 (empty@36)))",
    ),
    ("int x = -(a);", "(declare@19 int x (-@23 (group@24 a@25)))"),
    (
        "p[f(a)] |= p->f;",
        "(|=@23 (at@15 p (call@17 f a@19)) (->@26 p f))",
    ),
    (
        "switch (a) { case -1: break; default: { } }",
        "(switch@15 a@23 (case@28 (-@33 1@34)) (break@37) (default@44) (block@53))",
    ),
    (
        "(void)a; f(1); return;",
        "(discard@21 a) (call@24 f 1@26) (return@30)",
    ),
];

#[test]
fn places(rt: HostRuntime) -> Result<(), Memory> {
    for &(text, wanted) in PLACES {
        let found = statements_of(rt.alloc(), text.as_bytes(), true)?;
        assert!(rt; found.as_slice() == wanted.as_bytes(), "of {text}");
    }
    Ok(())
}

/// Headers and sources, and their items or their first fault.
const ITEMS: &[(&[u8], &str, &str)] = &[
    (b"", "", ""),
    (b"", "int f(void);", "(int f)"),
    (
        b"",
        "static void f(void) { } int g(void) { return 1; }",
        "(static void f :) (int g : (return 1))",
    ),
    (
        b"#include <stdint.h>\nint f(struct t *p, const struct t *q);\n",
        "#include \"h.h\"\nvoid g(uint8_t *p, const uint8_t *q, int8_t n);",
        "(int f (struct t* p) (const struct t* q)) \
             (void g (uint8_t* p) (const uint8_t* q) (int8_t n))",
    ),
    (
        b"",
        "struct t { _Bool a; signed char b; unsigned char c; short d; unsigned short e; };",
        "(struct t (_Bool a) (signed char b) (unsigned char c) (short d) (unsigned short e))",
    ),
    (
        b"",
        "struct t { unsigned a; unsigned int b; long c; unsigned long d; int e; };",
        "(struct t (unsigned a) (unsigned b) (long c) (unsigned long d) (int e))",
    ),
    (
        b"#define ONE (0 + 1)\n",
        "#include <string.h>\n#include \"h.h\"\nvoid f(void) { memset(p, ONE, (size_t)8); }",
        "(void f : (memset p (group (+ 0 1)) (cast size_t 8)))",
    ),
    (
        b"",
        "void f(void) { memset(p, 1, 8); }",
        "(void f : (call memset p 1 8))",
    ),
    (
        b"",
        "#include <stddef.h>\n#include <stdbool.h>\nbool f(void) { return true || p != NULL; }",
        "(_Bool f : (return (|| 1 (!= p (null)))))",
    ),
    // each kind of fault
    (b"", "int a @", "40 BadToken source 1:7"),
    (b"", "int f(void);\n int g('a');", "40 BadToken source 2:8"),
    (b"\n // a \\\n", "", "41 Splice header 2:7"),
    (b"\n\n/*", "@", "42 OpenComment header 3:1"),
    (b"", "\n #if 1\n#endif", "43 BadDirective source 2:2"),
    (
        b"#include \"h.h\"",
        "#include \"h.h\"",
        "44 UnknownHeader header 1:1",
    ),
    (
        b"#include \"\"",
        "#include \"h.h\"",
        "44 UnknownHeader header 1:1",
    ),
    (b"", "\n #include \"\"", "44 UnknownHeader source 2:2"),
    (
        b"",
        "int f(void); \n#define A (B)",
        "45 MacroBody source 2:1",
    ),
    (b"", "#define A 1\n  #define A 2", "46 Redefined source 2:3"),
    (
        b"",
        "#ifdef A\n#else\n#else\n#endif",
        "47 Unbalanced source 3:1",
    ),
    (b"", "int f(void)", "48 Syntax source 1:1"),
    (b"", "int f();", "48 Syntax source 1:7"),
    (b"", "struct t { };", "48 Syntax source 1:12"),
];

#[test]
fn items(rt: HostRuntime) -> Result<(), Memory> {
    for &(header, source, wanted) in ITEMS {
        let found = items_of(rt.alloc(), header, source.as_bytes())?;
        assert!(rt; found.as_slice() == wanted.as_bytes(), "of {source}");
    }
    Ok(())
}

/// A front, a text that stands so many times, a middle, another that stands as often, and a back.
pub(super) type Nested<'a> = (&'a str, &'a str, &'a str, &'a str, &'a str);

fn nest(alloc: Global, parts: Nested<'_>, times: u32) -> Result<Vec<u8>, Memory> {
    let (front, before, middle, behind, back) = parts;
    let mut text = Vec::from_slice(alloc, front.as_bytes())?;
    for _ in 0..times {
        text.extend_from_slice(before.as_bytes())?;
    }
    text.extend_from_slice(middle.as_bytes())?;
    for _ in 0..times {
        text.extend_from_slice(behind.as_bytes())?;
    }
    text.extend_from_slice(back.as_bytes())?;
    Ok(text)
}

/// Whether the statements of the text, or its first fault, are those that are wanted.
pub(super) fn holds(
    alloc: Global,
    times: u32,
    text: Nested<'_>,
    wanted: Nested<'_>,
) -> Result<bool, Memory> {
    let text = nest(alloc, text, times)?;
    let wanted = nest(alloc, wanted, times)?;
    Ok(statements_of(alloc, &text, false)?.as_slice() == wanted.as_slice())
}

/// How often, what is nested, and what is wanted.
const LONG_TEXTS: &[(u32, Nested<'static>, Nested<'static>)] = &[
    (
        1000,
        ("", "if (1) ", "return 1;", "", ""),
        ("", "(if 1 ", "(return 1)", ")", ""),
    ),
    (
        1000,
        ("", "if (1) return 2; else ", "return 1;", "", ""),
        ("", "(if 1 (return 2) ", "(return 1)", ")", ""),
    ),
    (
        2000,
        ("return ", "- ", "1;", "", ""),
        ("(return ", "(- ", "1", ")", ")"),
    ),
    // The innermost has no condition.
    (
        1000,
        ("", "if (1) ", "if 1; return 1;", "", ""),
        ("48 Syntax source 2:7001", "", "", "", ""),
    ),
    (
        1000,
        ("", "if (1) ; else ", "if 1; return 1;", "", ""),
        ("48 Syntax source 2:14001", "", "", "", ""),
    ),
    // No branch follows the last, so the bracket that closes the body shows the fault.
    (
        1000,
        ("", "if (1) ", "", "", ""),
        ("48 Syntax source 3:1", "", "", "", ""),
    ),
    (
        1000,
        ("", "if (1) ; else ", "", "", ""),
        ("48 Syntax source 3:1", "", "", "", ""),
    ),
    (
        1000,
        ("", "if (1) ; else ", "if (1) ; else", "", ""),
        ("48 Syntax source 3:1", "", "", "", ""),
    ),
    // One more `else`.
    (
        1000,
        ("", "if (1) ; else ", "return 1; else return 2;", "", ""),
        ("48 Syntax source 2:14011", "", "", "", ""),
    ),
    // The brace of the function is open too.
    (
        63,
        ("return ", "(", "1", ")", ";"),
        ("(return ", "(group ", "1", ")", ")"),
    ),
    (
        64,
        ("return ", "(", "1", ")", ";"),
        ("49 TooDeep source 2:71", "", "", "", ""),
    ),
    (
        63,
        ("a = 1; ", "{", ";", "}", ""),
        ("(= a 1) ", "(block ", "(empty)", ")", ""),
    ),
    (
        64,
        ("a = 1; ", "{", ";", "}", ""),
        ("49 TooDeep source 2:71", "", "", "", ""),
    ),
    // The bracket before `void` counts.
    (
        62,
        ("", "{", "(void)a;", "}", ""),
        ("", "(block ", "(discard a)", ")", ""),
    ),
    (
        63,
        ("", "{", "(void)a;", "}", ""),
        ("49 TooDeep source 2:64", "", "", "", ""),
    ),
    (
        63,
        ("", "{", "(void)a;1 2;", "}", ""),
        ("49 TooDeep source 2:64", "", "", "", ""),
    ),
];

#[test]
fn long_texts(rt: HostRuntime) -> Result<(), Memory> {
    for &(times, text, wanted) in LONG_TEXTS {
        let holds = holds(rt.alloc(), times, text, wanted)?;
        let (front, before, middle, ..) = text;
        assert!(rt; holds, "of {front}, {times} of {before}, and {middle}");
    }
    Ok(())
}
