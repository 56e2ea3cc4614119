//! Texts, and their trees in one line.
use crate::reading::{ALL, filled, line_of, unit_behind};
use c_mean::{CFault, Item, Unit};
use c_printer::{print_function, print_struct};
use cg_out::Memory;
use std::alloc::Global;
use std::process::Abort;
use std::test::Fail;

/// A text and its trees.
type Row = (&'static str, &'static str);

/// What stands around texts, and around their lines, with `@` where these stand; and the rows.
struct Table {
    text: &'static str,
    line: &'static str,
    rows: &'static [Row],
}

const TABLES: &[Table] = &[
    Table {
        text: "int f(void)\n{\n    return @;\n}\n",
        line: "(int f : (return @))",
        rows: EXPRESSIONS,
    },
    Table {
        text: "int f(void)\n{\n@}\n",
        line: "(int f : @)",
        rows: STATEMENTS,
    },
    // A type wherever one stands.
    Table {
        text: "struct s_t {\n    @ f;\n};\nstatic @ g(@ a)\n{\n    @ x = (@)a;\n}\n",
        line: "(struct s_t (@ f)) (static @ g (@ a) : (declare @ x (cast @ a)))",
        rows: TYPES,
    },
    Table {
        text: "@",
        line: "@",
        rows: ITEMS,
    },
];

const EXPRESSIONS: &[Row] = &[
    // Constants, of which the line shows the value in base 10.
    ("0", "0"),
    ("90", "90"),
    ("18446744073709551615ull", "18446744073709551615ull"),
    ("8u", "8u"),
    ("8l", "8l"),
    ("8ul", "8ul"),
    ("8ll", "8ll"),
    ("0x00", "0"),
    ("0x1fu", "31u"),
    ("0xff", "255"),
    ("0x0100", "256"),
    ("0x0800", "2048"),
    ("0xffff", "65535"),
    ("0x00010000", "65536"),
    ("0x00abcdeful", "11259375ul"),
    ("0xffffffff", "4294967295"),
    ("0x0000000100000000ll", "4294967296ll"),
    ("0xffffffffffffffffull", "18446744073709551615ull"),
    ("01", "1"),
    ("010u", "8u"),
    ("0755l", "493l"),
    ("01777777777777777777777ull", "18446744073709551615ull"),
    // Each operator.
    ("+a", "(+ a)"),
    ("-a", "(- a)"),
    ("~a", "(~ a)"),
    ("!a", "(! a)"),
    ("a || 1", "(|| a 1)"),
    ("a && 1", "(&& a 1)"),
    ("a | 1", "(| a 1)"),
    ("a ^ 1", "(^ a 1)"),
    ("a & 1", "(& a 1)"),
    ("a == 1", "(== a 1)"),
    ("a != 1", "(!= a 1)"),
    ("a < 1", "(< a 1)"),
    ("a > 1", "(> a 1)"),
    ("a <= 1", "(<= a 1)"),
    ("a >= 1", "(>= a 1)"),
    ("a << 1", "(<< a 1)"),
    ("a >> 1", "(>> a 1)"),
    ("a + 1", "(+ a 1)"),
    ("a - 1", "(- a 1)"),
    // Operands.
    ("a", "a"),
    ("NULL", "(null)"),
    ("p->f", "(-> p f)"),
    ("d[0]", "(at d 0)"),
    ("d[a + 1]", "(at d (+ a 1))"),
    ("g()", "(call g)"),
    ("g(1)", "(call g 1)"),
    ("g(1, p->f, 2)", "(call g 1 (-> p f) 2)"),
    ("memset(d, 0, 8)", "(memset d 0 8)"),
    ("((1))", "(group (group 1))"),
    // One operator within another.
    ("-~!1", "(- (~ (! 1)))"),
    ("-(-1)", "(- (group (- 1)))"),
    ("(uint8_t)-1", "(cast uint8_t (- 1))"),
    ("-(uint8_t)(int)1", "(- (cast uint8_t (cast int 1)))"),
    ("3 - 2 - 1", "(- (- 3 2) 1)"),
    ("3 - (2 - 1)", "(- 3 (group (- 2 1)))"),
    ("1 << 2 | 3 & 4", "(| (<< 1 2) (& 3 4))"),
];

const BLOCKS: &str = "    {
        ;
        {
            return 1;
        }
    }
";

const IF_ELSE: &str = "    if (1) {
        ;
    } else {
        if (2) {
            {
            }
            return 3;
        }
    }
";

const SWITCH: &str = "    switch (a) {
    case 0x01u:
    case -(2):
        g(1);
        break;
    default:
        {
            int x;
        }
        if (1) {
            break;
        }
    }
";

const STATEMENTS: &[Row] = &[
    // Each assignment.
    ("    a = 1;\n", "(= a 1)"),
    ("    a |= 1;\n", "(|= a 1)"),
    ("    a &= 1;\n", "(&= a 1)"),
    ("    a ^= 1;\n", "(^= a 1)"),
    ("    a += 1;\n", "(+= a 1)"),
    ("    a -= 1;\n", "(-= a 1)"),
    ("    a <<= 1;\n", "(<<= a 1)"),
    ("    a >>= 1;\n", "(>>= a 1)"),
    ("    p->f = 1;\n", "(= (-> p f) 1)"),
    ("    d[0] |= 1;\n", "(|= (at d 0) 1)"),
    // Of one line.
    ("    uint8_t x;\n", "(declare uint8_t x)"),
    ("    int x = -1;\n", "(declare int x (- 1))"),
    ("    g();\n", "(call g)"),
    ("    memset(d, 0, 8);\n", "(memset d 0 8)"),
    ("    (void)a;\n", "(discard a)"),
    ("    ;\n", "(empty)"),
    ("    return;\n", "(return)"),
    ("    return 1;\n", "(return 1)"),
    // Of more lines.
    ("    {\n    }\n", "(block)"),
    (BLOCKS, "(block (empty) (block (return 1)))"),
    ("    if (1) {\n    }\n", "(if 1 (block))"),
    (
        "    if (1) {\n    } else {\n    }\n",
        "(if 1 (block) (block))",
    ),
    (
        IF_ELSE,
        "(if 1 (block (empty)) (block (if 2 (block (block) (return 3)))))",
    ),
    ("    switch (1) {\n    }\n", "(switch 1)"),
    (
        SWITCH,
        "(switch a (case 1u) (case (- (group 2))) (call g 1) (break) \
        (default) (block (declare int x)) (if 1 (block (break))))",
    ),
];

const TYPES: &[Row] = &[
    ("size_t", "size_t"),
    ("int8_t", "int8_t"),
    ("int16_t", "int16_t"),
    ("int32_t", "int32_t"),
    ("int64_t", "int64_t"),
    ("uint8_t", "uint8_t"),
    ("uint16_t", "uint16_t"),
    ("uint32_t", "uint32_t"),
    ("uint64_t", "uint64_t"),
    ("bool", "_Bool"),
    ("signed char", "signed char"),
    ("unsigned char", "unsigned char"),
    ("short", "short"),
    ("unsigned short", "unsigned short"),
    ("int", "int"),
    ("unsigned int", "unsigned"),
    ("long", "long"),
    ("unsigned long", "unsigned long"),
    ("long long", "long long"),
    ("unsigned long long", "unsigned long long"),
];

const ITEMS: &[Row] = &[
    (
        "struct s_t {\n    uint8_t f;\n};\n",
        "(struct s_t (uint8_t f))",
    ),
    (
        "int f(uint8_t *d, const struct s_t *p, size_t n);\n",
        "(int f (uint8_t* d) (const struct s_t* p) (size_t n))",
    ),
    (
        "void f(const uint8_t *d, struct s_t *p);\n",
        "(void f (const uint8_t* d) (struct s_t* p))",
    ),
    ("static void g(void);\n", "(static void g)"),
    ("static void g(void)\n{\n}\n", "(static void g :)"),
];

/// The text that the items of a unit are printed as.
fn printed(alloc: Global, unit: &Unit) -> Result<Vec<u8>, Memory> {
    let mut out = Vec::new(alloc);
    for item in unit.items.items() {
        match item {
            Item::Struct(item) => print_struct(item, &[], &mut out)?,
            Item::Function(item) => print_function(item, &mut out)?,
        }
    }
    Ok(out)
}

/// Whether the text is read as these trees, and they are printed as the text.
fn holds(alloc: Global, text: &[u8], line: &[u8]) -> Result<bool, CFault> {
    let unit = unit_behind(alloc, ALL, text)?;
    let read = line_of(alloc, &unit)?;
    let again = printed(alloc, &unit)?;
    Ok(read.as_slice() == line && again.as_slice() == text)
}

/// Whether the row of a table holds.
fn row_holds(alloc: Global, table: &Table, row: Row) -> Result<bool, CFault> {
    let (text, line) = row;
    let text = filled(alloc, table.text, text.as_bytes())?;
    let line = filled(alloc, table.line, line.as_bytes())?;
    holds(alloc, &text, &line)
}

/// Goes over the rows of a table.
fn check(rt: &impl Abort, alloc: Global, table: &Table) -> Result<(), Fail> {
    for &row in table.rows {
        let holds = matches!(row_holds(alloc, table, row), Ok(true));
        assert!(rt; holds, "of {}", row.0);
    }
    Ok(())
}

#[test]
fn texts_are_printed_again(rt: HostRuntime) -> Result<(), Fail> {
    for table in TABLES {
        check(&rt, rt.alloc(), table)?;
    }
    Ok(())
}
