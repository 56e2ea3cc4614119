//! Parts, the text that they are printed as, and the items that are read of it.
use crate::pieces::{Body, Piece, printed};
use crate::reading::{ALL, line_of, unit_behind};
use c_mean::CFault;
use c_shown::unit_of;
use std::alloc::Global;
use std::test::Fail;

/// Parts, their text and its items.
type Row = (&'static [Piece], &'static str, &'static str);

const COMMENTS: &str = "struct s_t {
    /* The first. */
    uint8_t f;
    int g;
    /* The third. */
    size_t h;
    int i;
};
";

const ROWS: &[Row] = &[
    (&[Piece::Comment("A comment.")], "/* A comment. */\n", ""),
    (&[Piece::Blank], "\n", ""),
    (&[Piece::Include("string.h")], "#include <string.h>\n", ""),
    (&[Piece::Beside("can.h")], "#include \"can.h\"\n", ""),
    (&[Piece::Define("A", Body::Empty)], "#define A\n", ""),
    (&[Piece::Define("A", Body::Alone(22))], "#define A 22\n", ""),
    (
        &[Piece::Define("A", Body::Bracketed(8, 10, true, 0))],
        "#define A (8u)\n",
        "",
    ),
    (
        &[Piece::Define("A", Body::Bracketed(0, 16, false, 0))],
        "#define A (0x0)\n",
        "",
    ),
    (
        &[Piece::Define("A", Body::Bracketed(0x1f0, 16, true, 0))],
        "#define A (0x1f0u)\n",
        "",
    ),
    (
        &[Piece::Define("A", Body::Bracketed(0x10000, 16, true, 1))],
        "#define A (0x10000ul)\n",
        "",
    ),
    (
        &[Piece::Define("A", Body::Bracketed(u64::MAX, 16, false, 0))],
        "#define A (0xffffffffffffffff)\n",
        "",
    ),
    (
        &[Piece::Define("A", Body::Bracketed(8, 8, false, 2))],
        "#define A (010ll)\n",
        "",
    ),
    (
        &[
            Piece::IfNotDefined("A"),
            Piece::Define("A", Body::Empty),
            Piece::EndIf,
        ],
        "#ifndef A\n#define A\n#endif\n",
        "",
    ),
    (
        &[Piece::Item(
            "struct s_t { uint8_t f; int g; size_t h; int i; };",
            &["The first.", "", "The third."],
        )],
        COMMENTS,
        "(struct s_t (uint8_t f) (int g) (size_t h) (int i))",
    ),
    // Names that stand for something else.
    (
        &[Piece::Item("int f(void) { return true; }", &[])],
        "int f(void)\n{\n    return true;\n}\n",
        "(int f : (return 1))",
    ),
    (
        &[Piece::Item("int f(void) { return false; }", &[])],
        "int f(void)\n{\n    return false;\n}\n",
        "(int f : (return 0))",
    ),
    (
        &[
            Piece::Define("A", Body::Bracketed(8, 10, true, 0)),
            Piece::Item("int f(void) { return A; }", &[]),
        ],
        "#define A (8u)\nint f(void)\n{\n    return A;\n}\n",
        "(int f : (return (group 8u)))",
    ),
];

/// Whether the parts are printed as the text, and it is read as these items.
fn holds(alloc: Global, row: Row) -> Result<bool, CFault> {
    let (pieces, text, line) = row;
    let out = printed(alloc, pieces)?;
    let unit = unit_behind(alloc, ALL, text.as_bytes())?;
    let read = line_of(alloc, &unit)?;
    Ok(out.as_slice() == text.as_bytes() && read.as_slice() == line.as_bytes())
}

#[test]
fn parts_are_printed_and_read(rt: HostRuntime) -> Result<(), Fail> {
    for &row in ROWS {
        let holds = matches!(holds(rt.alloc(), row), Ok(true));
        assert!(rt; holds, "of {}", row.1);
    }
    Ok(())
}

const HEADER_PIECES: &[Piece] = &[
    Piece::Comment("A header."),
    Piece::Blank,
    Piece::IfNotDefined("E_H"),
    Piece::Define("E_H", Body::Empty),
    Piece::Blank,
    Piece::Include("stdbool.h"),
    Piece::Include("stddef.h"),
    Piece::Include("stdint.h"),
    Piece::Blank,
    Piece::IfNotDefined("EINVAL"),
    Piece::Define("EINVAL", Body::Alone(22)),
    Piece::EndIf,
    Piece::Blank,
    Piece::Define("E_LENGTH", Body::Bracketed(2, 10, true, 0)),
    Piece::Blank,
    Piece::Item(
        "struct e_t { uint16_t speed; _Bool on; };",
        &["In km/h.", ""],
    ),
    Piece::Blank,
    Piece::Item(
        "int e_pack(uint8_t *dst_p, const struct e_t *src_p, size_t size);",
        &[],
    ),
    Piece::Blank,
    Piece::EndIf,
];

const HEADER: &str = "/* A header. */

#ifndef E_H
#define E_H

#include <stdbool.h>
#include <stddef.h>
#include <stdint.h>

#ifndef EINVAL
#define EINVAL 22
#endif

#define E_LENGTH (2u)

struct e_t {
    /* In km/h. */
    uint16_t speed;
    bool on;
};

int e_pack(uint8_t *dst_p, const struct e_t *src_p, size_t size);

#endif
";

const SOURCE_PIECES: &[Piece] = &[
    Piece::Include("string.h"),
    Piece::Beside("e.h"),
    Piece::Blank,
    Piece::Item(
        "int e_pack(uint8_t *dst_p, const struct e_t *src_p, size_t size) { \
        if (src_p == NULL || size < E_LENGTH) { return -EINVAL; } \
        memset(dst_p, 0, E_LENGTH); \
        if (src_p->on == true) { dst_p[0] |= (uint8_t)(src_p->speed >> 8); } \
        else { dst_p[1] = 0x80u; } \
        return 0; }",
        &[],
    ),
];

const SOURCE: &str = "#include <string.h>
#include \"e.h\"

int e_pack(uint8_t *dst_p, const struct e_t *src_p, size_t size)
{
    if (src_p == NULL || size < E_LENGTH) {
        return -EINVAL;
    }
    memset(dst_p, 0, E_LENGTH);
    if (src_p->on == true) {
        dst_p[0] |= (uint8_t)(src_p->speed >> 8);
    } else {
        dst_p[1] = 0x80u;
    }
    return 0;
}
";

/// The items of both.
const ITEMS: &str = "(struct e_t (uint16_t speed) (_Bool on)) \
(int e_pack (uint8_t* dst_p) (const struct e_t* src_p) (size_t size)) \
(int e_pack (uint8_t* dst_p) (const struct e_t* src_p) (size_t size) : \
(if (|| (== src_p (null)) (< size (group 2u))) (block (return (- 22)))) \
(memset dst_p 0 (group 2u)) \
(if (== (-> src_p on) 1) \
(block (|= (at dst_p 0) (cast uint8_t (group (>> (-> src_p speed) 8))))) \
(block (= (at dst_p 1) 128u))) \
(return 0))";

#[test]
fn a_header_and_a_source(rt: HostRuntime) -> Result<(), Fail> {
    let alloc = rt.alloc();
    let header = printed(alloc, HEADER_PIECES)?;
    assert!(rt; header.as_slice() == HEADER.as_bytes(), "the header");
    let source = printed(alloc, SOURCE_PIECES)?;
    assert!(rt; source.as_slice() == SOURCE.as_bytes(), "the source");
    let unit = unit_of(alloc, "e.h", HEADER.as_bytes(), SOURCE.as_bytes())?;
    let line = line_of(alloc, &unit)?;
    assert!(rt; line.as_slice() == ITEMS.as_bytes(), "the items of both");
    Ok(())
}
