//! The header of the first row, read as C.
use crate::rows::CAN_HEADER;
use c_mean::{CFault, Constant, Token, TokenKind};
use c_pre::expand;
use c_shown::read;
use std::alloc::Global;
use std::test::Fail;

fn is_mark(token: &Token, spelling: &[u8]) -> bool {
    matches!(&token.kind, TokenKind::Mark(mark) if mark.bytes() == spelling)
}

fn is_constant(token: &Token, value: u64, base: u8, unsigned: bool) -> bool {
    let expected = Constant {
        value,
        base,
        unsigned,
        longs: 0,
    };
    matches!(&token.kind, TokenKind::Constant(constant) if *constant == expected)
}

/// The bodies that the header's macros have.
#[derive(Clone, Copy)]
enum Body {
    Empty,
    Alone(u64),
    /// A constant in brackets: its value, its base and whether it has a `u`.
    Bracketed(u64, u8, bool),
}

fn has_body(tokens: &[Token], body: Body) -> bool {
    match (tokens, body) {
        ([], Body::Empty) => true,
        ([constant], Body::Alone(value)) => is_constant(constant, value, 10, false),
        ([open, constant, close], Body::Bracketed(value, base, unsigned)) => {
            is_mark(open, b"(")
                && is_constant(constant, value, base, unsigned)
                && is_mark(close, b")")
        }
        _ => false,
    }
}

#[test]
fn a_header_leaves_its_macros(rt: HostRuntime) -> Result<(), Fail> {
    let alloc = rt.alloc();
    let header = read(alloc, CAN_HEADER, true)?;
    let source = read(alloc, b"#include \"can.h\"", false)?;
    let left = expand(alloc, &header, b"can.h", &source)?;
    // A struct of one field has 8 tokens, and a prototype 17.
    assert_eq!(rt; left.tokens.items().len(), 2 * (8 + 17));
    let macros = [
        ("CAN_H", Body::Empty),
        ("EINVAL", Body::Alone(22)),
        ("CAN_PING_FRAME_ID", Body::Bracketed(291, 16, true)),
        ("CAN_PING_LENGTH", Body::Bracketed(2, 10, true)),
        ("CAN_PING_IS_EXTENDED", Body::Bracketed(0, 10, false)),
        ("CAN_PONG_FRAME_ID", Body::Bracketed(1, 16, true)),
        ("CAN_PONG_LENGTH", Body::Bracketed(0, 10, true)),
        ("CAN_PONG_IS_EXTENDED", Body::Bracketed(1, 10, false)),
    ];
    assert_eq!(rt; left.macros.items().len(), macros.len());
    for (found, (name, body)) in left.macros.items().iter().zip(macros) {
        assert_eq!(rt; found.name.bytes(), name.as_bytes());
        assert!(rt; has_body(found.body.items(), body), "the body of {name}");
    }
    Ok(())
}

/// Whether memory sufficed; an answer and a fault of the text are both fine.
fn returned(alloc: Global, header: &[u8], source: &[Token]) -> bool {
    match read(alloc, header, true) {
        Ok(header) => !matches!(
            expand(alloc, &header, b"can.h", source),
            Err(CFault::Memory)
        ),
        Err(fault) => fault != CFault::Memory,
    }
}

#[test]
fn a_header_that_is_cut_off_is_read(rt: HostRuntime) -> Result<(), Fail> {
    let alloc = rt.alloc();
    let source = read(alloc, b"#include \"can.h\"", false)?;
    for end in 0..CAN_HEADER.len() {
        assert!(rt; returned(alloc, &CAN_HEADER[..end], &source), "up to {end}");
    }
    Ok(())
}
