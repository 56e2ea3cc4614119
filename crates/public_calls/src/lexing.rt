//! `c_lexer`: the tokens of texts, their places, and first faults.
use crate::spelling::{read, write_fault, write_places, write_tokens};
use cg_out::Memory;
use std::alloc::Global;
use std::test::Fail;

/// The tokens of a text, or its first fault.
fn outcome(alloc: Global, text: &str) -> Result<Vec<u8>, Memory> {
    let mut out = Vec::new(alloc);
    match read(alloc, text, false) {
        Ok(list) => write_tokens(alloc, &mut out, &list)?,
        Err(fault) => write_fault(alloc, &mut out, fault)?,
    }
    Ok(out)
}

const BAD_TOKENS: &[&str] = &[
    "1.5",
    "0x",
    "0xu",
    "08",
    "9a",
    "1lL",
    "1uLl",
    "1lul",
    "1uu",
    "1ulu",
    "1lll",
    "18446744073709551616",
    "0x10000000000000000",
    "02000000000000000000000u",
];

#[test]
fn texts_have_their_tokens(rt: HostRuntime) -> Result<(), Memory> {
    for (text, wanted) in [
        ("", ""),
        (" \t\r\n", ""),
        ("int a1_;", "\nint a1_ ;"),
        ("\"a\"b", "\n\"a\" b"),
        ("\"/*a*/\"+\"//\"", "\n\"/*a*/\" + \"//\""),
        ("a/*b*/c/*/d*/e/***/f", "\na c e f"),
        ("a//b*/\nc//d", "\na\nc"),
        ("? ?", "\n? ?"),
        ("/*?*/?\"?\"?", "\n? \"?\" ?"),
        (".5+0x1F", "\n. 5 + 31:16"),
        ("<<=<<<", "\n<<= << <"),
        (">>=>>>", "\n>>= >> >"),
        ("......", "\n... ..."),
        (".....", "\n... . ."),
        ("->-->+++", "\n-> -- > ++ +"),
        ("<=>====!==", "\n<= >= == = != ="),
        ("&&&|||###", "\n&& & || | ## #"),
        ("*=/=%=+=", "\n*= /= %= +="),
        ("-=&=^=|=", "\n-= &= ^= |="),
        ("[](){}.&*+-~!", "\n[ ] ( ) { } . & * + - ~ !"),
        ("/%<>^|?:;=,#", "\n/ % < > ^ | ? : ; = , #"),
        // constants
        ("0 0uLL 00 017 42", "\n0 0ull 0:8 15:8 42"),
        (
            "0x1F 0Xabcdefull 0x000000000000000000001",
            "\n31:16 11259375:16ull 1:16",
        ),
        ("1u 1U 1l 1L 1ll 1LL", "\n1u 1u 1l 1l 1ll 1ll"),
        (
            "1ul 1UL 1uLL 1Ull 1lu 1LU 1llU 1LLu",
            "\n1ul 1ul 1ull 1ull 1ul 1ul 1ull 1ull",
        ),
        ("18446744073709551615", "\n18446744073709551615"),
        ("0xFFFFFFFFFFFFFFFF", "\n18446744073709551615:16"),
        ("01777777777777777777777", "\n18446744073709551615:8"),
        // first faults
        ("a @", "40 BadToken source 1:2-3"),
        ("\n\u{E9}", "40 BadToken source 2:1-2"),
        ("'a'", "40 BadToken source 1:0-1"),
        ("\"a", "40 BadToken source 1:0-1"),
        ("a \"b\n\"", "40 BadToken source 1:2-3"),
        ("<:", "40 BadToken source 1:0-1"),
        ("a<%", "40 BadToken source 1:1-2"),
        (":>", "40 BadToken source 1:0-1"),
        ("%>", "40 BadToken source 1:0-1"),
        ("%:%:", "40 BadToken source 1:0-1"),
        ("a=0x1e+1", "40 BadToken source 1:2-3"),
        ("a\n/* b\n", "42 OpenComment source 2:2-4"),
        ("/*/", "42 OpenComment source 1:0-2"),
        ("a\\\nb", "41 Splice source 1:1-2"),
        ("\\", "41 Splice source 1:0-1"),
        ("???", "41 Splice source 1:0-1"),
        ("\n// a??/\nb", "41 Splice source 2:5-6"),
        ("/*\n\\ */", "41 Splice source 2:3-4"),
        ("\"\\n\"", "41 Splice source 1:1-2"),
        ("\"\\n", "40 BadToken source 1:0-1"),
        ("/* ??", "42 OpenComment source 1:0-2"),
        ("a\\ @", "41 Splice source 1:1-2"),
        ("@\\", "40 BadToken source 1:0-1"),
        ("0xu\\", "40 BadToken source 1:0-1"),
        ("a??", "41 Splice source 1:1-2"),
        ("? ???", "41 Splice source 1:2-3"),
        ("\"a??b\"", "41 Splice source 1:2-3"),
        ("\n/* a\n?? */ @", "41 Splice source 3:6-7"),
        ("a // ?\\?", "41 Splice source 1:6-7"),
    ] {
        let found = outcome(rt.alloc(), text)?;
        assert!(rt; found.as_slice() == wanted.as_bytes(), "of {text}");
    }
    for text in BAD_TOKENS {
        let found = outcome(rt.alloc(), text)?;
        assert!(rt;
            found.as_slice() == b"40 BadToken source 1:0-1".as_slice(),
            "of {text}"
        );
    }
    Ok(())
}

const PLACES: &[(&str, &str, &str)] = &[
    (
        "a b\n/* 1\n2 */ c\n\n\"d\" // e\n3UL",
        "\na b\nc\n\"d\"\n3ul",
        " 1:0-1 1:2-3 3:14-15 5:17-20 6:26-29",
    ),
    (
        "x/*\n*/y\nz<<=5",
        "\nx y\nz <<= 5",
        " 1:0-1 2:6-7 3:8-9 3:9-12 3:12-13",
    ),
];

#[test]
fn tokens_have_their_places(rt: HostRuntime) -> Result<(), Fail> {
    let alloc = rt.alloc();
    for &(text, kinds, places) in PLACES {
        let list = read(alloc, text, true)?;
        for token in &list {
            assert!(rt; token.place.header);
        }
        let mut found = Vec::new(alloc);
        write_tokens(alloc, &mut found, &list)?;
        assert!(rt; found.as_slice() == kinds.as_bytes(), "of {text}");
        found.clear();
        write_places(alloc, &mut found, &list)?;
        assert!(rt; found.as_slice() == places.as_bytes(), "of {text}");
    }
    Ok(())
}
