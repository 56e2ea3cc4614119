//! `c_expression`: what is asked of tokens, and faults with few brackets left.
use crate::spelling::{read, write_fault};
use c_expression::*;
use c_mean::{AssignOp, BinaryOp, CFault, ExprKind, IntType, Place, Spelled, UnaryOp};
use cg_out::Memory;
use std::alloc::Global;
use std::test::Fail;

/// The place behind all tokens.
fn end() -> Place {
    Place {
        header: false,
        line: 9,
        start: 99,
        end: 100,
    }
}

/// Nothing where the text is an expression, and else its first fault.
fn fault_of(alloc: Global, text: &str, room: u32) -> Result<Vec<u8>, CFault> {
    let tokens = read(alloc, text, false)?;
    let mut out = Vec::new(alloc);
    if let Err(fault) = cut(alloc, &tokens, room, end()) {
        write_fault(alloc, &mut out, fault)?;
    }
    Ok(out)
}

const FIRST_FAULTS: &[(&str, u32, &str)] = &[
    ("a+<b", 64, "48 Syntax source 1:2-3"),
    ("a-", 64, "48 Syntax source 9:99-100"),
    ("a b", 64, "48 Syntax source 1:0-1"),
    ("f(a,)", 64, "48 Syntax source 1:4-5"),
    ("((a))", 2, ""),
    ("(p[(a)])", 2, "49 TooDeep source 1:3-4"),
    ("f((int)a)", 1, "49 TooDeep source 1:2-3"),
    ("-(a)b", 64, "48 Syntax source 1:1-2"),
    ("a+b c+d e", 64, "48 Syntax source 1:2-3"),
    ("f(a,b c,d e)", 64, "48 Syntax source 1:4-5"),
    ("a-(b-(c+))-d e", 64, "48 Syntax source 1:8-9"),
    ("-(a()+((b)))*2", 2, "48 Syntax source 1:1-2"),
    ("(int]-1", 64, "48 Syntax source 1:5-6"),
];

#[test]
fn texts_have_their_first_faults(rt: HostRuntime) -> Result<(), CFault> {
    for &(text, room, wanted) in FIRST_FAULTS {
        let found = fault_of(rt.alloc(), text, room)?;
        assert!(rt; found.as_slice() == wanted.as_bytes(), "of {text}");
    }
    Ok(())
}

#[test]
fn an_expression_and_arguments(rt: HostRuntime) -> Result<(), Fail> {
    let alloc = rt.alloc();
    let tokens = read(alloc, "a-b-(c)", false)?;
    let tree = cut(alloc, &tokens, 1, end())?;
    assert_eq!(rt; tree.place.start, 3);
    assert!(rt;
        matches!(
            tree.kind,
            ExprKind::Binary {
                op: BinaryOp::Subtract,
                ..
            }
        )
    );
    let tokens = read(alloc, "a,f(b,c),d", false)?;
    let args = arguments(alloc, &tokens, 1, end())?;
    assert_eq!(rt; args.items().len(), 3);
    Ok(())
}

#[test]
fn names_and_brackets(rt: HostRuntime) -> Result<(), Fail> {
    let tokens = read(rt.alloc(), "a,f(b,c),d", false)?;
    let [_, comma, f, open, ..] = tokens.as_slice() else {
        return Err("ten tokens")?;
    };
    assert!(rt; matches!(name(&f.kind), Some(b"f")));
    assert!(rt; matches!(callee(&f.kind), Some(LentCallee::Name(b"f"))));
    assert_eq!(rt; keyword(&f.kind), None);
    assert!(rt; is_round(&open.kind));
    assert!(rt; Stop::Comma.is(&comma.kind));
    assert_eq!(rt; opens(&open.kind).is_some(), closes(&open.kind).is_none());
    assert_eq!(rt; depth_after(&open.kind, 1), 2);
    assert_eq!(rt; first_outside(Stop::Comma, behind(&tokens, 2)), Some(6));
    assert_eq!(rt; closing(behind(&tokens, 4)), Some(3));
    assert_eq!(rt; first_part(behind(&tokens, 2), end()).tokens.len(), 6);
    Ok(())
}

#[test]
fn types_and_operators(rt: HostRuntime) -> Result<(), Fail> {
    let tokens = read(rt.alloc(), "unsigned char)-|=", false)?;
    let [word, _, _, minus, set] = tokens.as_slice() else {
        return Err("five tokens")?;
    };
    assert!(rt; is_type_word(&word.kind));
    let byte = Spelled::Plain(IntType::UnsignedChar);
    assert_eq!(rt; front_type(&tokens), Some((byte, 2)));
    assert_eq!(rt; spelled(&tokens[..2]), Some(byte));
    assert_eq!(rt; operator(&minus.kind), Some((8, BinaryOp::Subtract)));
    assert_eq!(rt; prefix(&minus.kind), Some(UnaryOp::Minus));
    assert_eq!(rt; sign(&minus.kind), Some(UnaryOp::Minus));
    assert_eq!(rt; assignment(&set.kind), Some(AssignOp::BitOr));
    assert_eq!(rt; inside(1, end()), Ok(0));
    Ok(())
}
