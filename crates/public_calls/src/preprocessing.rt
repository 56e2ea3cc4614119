//! `c_pre`: what is left of a header `can.h` and a source, and first faults.
use crate::spelling::{read, write_fault, write_macros, write_places, write_tokens};
use c_mean::{CFault, Preprocessed};
use c_pre::expand;
use cg_out::Memory;
use std::alloc::Global;
use std::test::Fail;

fn expanded(alloc: Global, header: &str, source: &str) -> Result<Preprocessed, CFault> {
    let header = read(alloc, header, true)?;
    let source = read(alloc, source, false)?;
    expand(alloc, &header, b"can.h", &source)
}

/// The tokens and the macros that are left, or the first fault.
fn outcome(alloc: Global, header: &str, source: &str) -> Result<Vec<u8>, Memory> {
    let mut out = Vec::new(alloc);
    match expanded(alloc, header, source) {
        Ok(left) => {
            write_tokens(alloc, &mut out, left.tokens.items())?;
            write_macros(alloc, &mut out, left.macros.items())?;
        }
        Err(fault) => write_fault(alloc, &mut out, fault)?,
    }
    Ok(out)
}

const LEFT: &[(&str, &str, &str)] = &[
    // A header's macros and tokens, where it is included and only there.
    (
        "#define A 1\nh",
        "A\n#include \"can.h\"\nx A",
        "\nA\nh\nx 1 ##A 1",
    ),
    ("#bad", "x", "\nx"),
    (
        "#ifdef A\nx\n#endif",
        "#define A\n#include \"can.h\"",
        "\nx ##A",
    ),
    (
        "#ifndef H\n#define H\nx\n#endif",
        "#include \"can.h\"\n#include \"can.h\"\ny",
        "\nx\ny ##H",
    ),
    // Bodies in the place of names; macros in the order of their first definitions.
    ("", "#define A (1)\nA x A", "\n( 1 ) x ( 1 ) ##A ( 1 )"),
    ("", "#define A\nx A y", "\nx y ##A"),
    (
        "",
        "#define B 0\n#define A 1\n#define B 0\nA B",
        "\n1 0 ##B 0 ##A 1",
    ),
    // Standard headers, before which a macro goes.
    ("", "#include <stdbool.h>\nbool true false", "\n_Bool 1 0"),
    (
        "",
        "uint8_t\n#include <stdint.h>\nuint8_t int64_t",
        "\nuint8_t\n<8 signed=false> <64 signed=true>",
    ),
    (
        "",
        "#include <string.h>\nmemset NULL size_t",
        "\n<memset> <null> <size>",
    ),
    (
        "",
        "#include <stddef.h>\n#define NULL 0\nNULL size_t",
        "\n0 <size> ##NULL 0",
    ),
    // Parts that are skipped, and a `#` inside a line.
    (
        "",
        "#ifdef A\n#bad\n#include <x>\nx\n#else\ny\n#endif\nz # z",
        "\ny\nz # z",
    ),
    (
        "",
        "#ifdef A\n#ifndef B\nx\n#else\nx\n#endif\nx\n#else\ny\n#endif",
        "\ny",
    ),
    (
        "",
        "#ifndef A\nx\n#ifdef A\ny\n#else\nz\n#endif\n#else\ny\n#endif",
        "\nx\nz",
    ),
    // First faults, each at the `#` of its directive.
    ("", "x\n#if A", "43 BadDirective source 2:2-3"),
    ("", "#", "43 BadDirective source 1:0-1"),
    ("", "#include <stdint.h> x", "43 BadDirective source 1:0-1"),
    ("", "#include <stdint .h>", "43 BadDirective source 1:0-1"),
    ("", "#include <>", "43 BadDirective source 1:0-1"),
    ("", "#define A(1)", "43 BadDirective source 1:0-1"),
    ("", "#define 1", "43 BadDirective source 1:0-1"),
    ("", "#ifdef A B\n#endif", "43 BadDirective source 1:0-1"),
    ("", "#ifndef A\n#endif A", "47 Unbalanced source 1:0-1"),
    ("", "#include <stdio.h>", "44 UnknownHeader source 1:0-1"),
    ("", "#include \"other.h\"", "44 UnknownHeader source 1:0-1"),
    (
        "#include \"can.h\"",
        "#include \"can.h\"",
        "44 UnknownHeader header 1:0-1",
    ),
    ("", "#define A (B)", "45 MacroBody source 1:0-1"),
    (
        "",
        "#define A 1\n#define A 1u",
        "46 Redefined source 2:12-13",
    ),
    (
        "#define A 1",
        "#define A 0\n#include \"can.h\"",
        "46 Redefined header 1:0-1",
    ),
    (
        "",
        "#define A 1\n#define A 0\n#endif",
        "46 Redefined source 2:12-13",
    ),
    ("", "#ifdef A\n#define A B", "47 Unbalanced source 1:0-1"),
    (
        "",
        "#ifdef A\n#else\n#else\n#endif",
        "47 Unbalanced source 3:15-16",
    ),
    (
        "",
        "#ifdef A\n#ifdef A\n#else\n#else\n#endif\n#endif",
        "47 Unbalanced source 4:24-25",
    ),
    ("", "x\n#else", "47 Unbalanced source 2:2-3"),
    (
        "#ifdef A",
        "#include \"can.h\"\n#endif",
        "47 Unbalanced header 1:0-1",
    ),
    (
        "#else",
        "#ifndef A\n#include \"can.h\"\n#endif",
        "47 Unbalanced header 1:0-1",
    ),
];

#[test]
fn what_is_left(rt: HostRuntime) -> Result<(), Memory> {
    for &(header, source, wanted) in LEFT {
        let found = outcome(rt.alloc(), header, source)?;
        assert!(rt; found.as_slice() == wanted.as_bytes(), "of {source}");
    }
    Ok(())
}

#[test]
fn a_body_stands_where_the_name_stood(rt: HostRuntime) -> Result<(), Fail> {
    let alloc = rt.alloc();
    let left = expanded(alloc, "", "#define A (1)\nx A")?;
    let mut found = Vec::new(alloc);
    write_places(alloc, &mut found, left.tokens.items())?;
    let wanted = b" 2:14-15 2:16-17 2:16-17 2:16-17";
    assert_eq!(rt; found.as_slice(), wanted.as_slice());
    Ok(())
}
