//! `name_table`, `c_mem` and `c_operators`: values by names, objects, and operators on typed values.
use c_mean::{BinaryOp, Constant, IntType, UnaryOp};
use c_mem::{Cells, Object, Objects, Pointer, Undefined};
use c_operators::{Operators, TypedValue, Value};
use c_widths::{Widths, is_signed, power};
use cg_out::Text;
use name_table::Table;
use std::test::Fail;

type Lp64 = Operators<32, 64, 64>;

/// An operator with its operands, of int, and what it gives.
const OPERATED: &[(BinaryOp, i128, i128, Result<i128, Undefined>)] = &[
    (BinaryOp::Add, 2_147_483_647, 1, Err(Undefined::Overflow)),
    (BinaryOp::Subtract, 3, 5, Ok(-2)),
    (BinaryOp::BitAnd, -1, 12, Ok(12)),
    (BinaryOp::BitXor, 5, 3, Ok(6)),
    (BinaryOp::BitOr, -8, 3, Ok(-5)),
    (BinaryOp::Less, -1, 0, Ok(1)),
    (BinaryOp::ShiftLeft, 1, 30, Ok(1_073_741_824)),
    (BinaryOp::ShiftLeft, 1, 31, Err(Undefined::ShiftOverflow)),
    (BinaryOp::ShiftLeft, -1, 32, Err(Undefined::ShiftCount)),
    (
        BinaryOp::ShiftRight,
        -1,
        0,
        Err(Undefined::NegativeRightShift),
    ),
];

/// A sign, its operand, of int, and what it gives.
const SIGNED: &[(UnaryOp, i128, Result<i128, Undefined>)] = &[
    (UnaryOp::Plus, -3, Ok(-3)),
    (UnaryOp::Minus, -2_147_483_648, Err(Undefined::Overflow)),
    (UnaryOp::Complement, 5, Ok(-6)),
    (UnaryOp::Not, 0, Ok(1)),
];

fn int(value: i128) -> TypedValue {
    TypedValue {
        kind: IntType::Int,
        value,
    }
}

#[test]
#[tactic(auto, unfolding(c_widths::specs::DataModel::is_listed))]
fn operators_give_values(rt: HostRuntime) -> Result<(), Fail> {
    for &(op, left, right, wanted) in OPERATED {
        assert_eq!(rt; Lp64::operate(op, int(left), int(right)), wanted.map(int));
    }
    for &(op, operand, wanted) in SIGNED {
        assert_eq!(rt; Lp64::signed(op, int(operand)), wanted.map(int));
    }
    let stray = Value::Pointer(Pointer::Stray);
    let null = Value::Pointer(Pointer::Null);
    assert_eq!(rt; Lp64::applied(BinaryOp::Equal, null, null), Ok(int(1)));
    assert_eq!(rt;
        Lp64::applied(BinaryOp::Equal, stray, null),
        Err(Undefined::OutOfBounds)
    );
    let five = Constant {
        value: 5,
        base: 10,
        unsigned: false,
        longs: 0,
    };
    assert_eq!(rt; Lp64::constant(&five), Ok(int(5)));
    assert_eq!(rt; Widths::<32, 32, 32>::bits(IntType::Long), 32);
    assert!(rt; is_signed(IntType::Long));
    assert_eq!(rt; power(8), 256);
    Ok(())
}

#[test]
fn objects_are_loaded_and_stored(rt: HostRuntime) -> Result<(), Fail> {
    let alloc = rt.alloc();
    let mut list = Vec::new(alloc);
    let bytes = Vec::from_slice(alloc, &[None, Some(7), None])?;
    list.push(Object::Bytes(Cells::new(bytes)))?;
    list.push(Object::Fields {
        tag: Text::copy_of(alloc, b"pair")?,
        cells: Cells::new(Vec::from_slice(alloc, &[None, Some(-9)])?),
    })?;
    let mut objects = Objects::new(list);
    let first = Pointer::At(0);
    assert_eq!(rt; objects.load(first, 1), Ok(7));
    assert_eq!(rt; objects.load(first, 0), Err(Undefined::Indeterminate));
    assert_eq!(rt; objects.load(first, 3), Err(Undefined::OutOfBounds));
    assert_eq!(rt; objects.load(Pointer::At(1), 1), Ok(-9));
    assert_eq!(rt; objects.store(first, 0, 300), Ok(()));
    assert_eq!(rt; objects.load(first, 0), Ok(44));
    assert_eq!(rt; objects.fill(first, 2, 2), Ok(()));
    assert_eq!(rt; objects.load(first, 1), Ok(2));
    assert_eq!(rt; objects.fill(Pointer::Null, 2, 0), Err(Undefined::NullUse));
    assert!(rt; objects.target(Pointer::Stray).is_err());
    assert!(rt; matches!(objects.object(0), Object::Bytes(_)));
    Ok(())
}

#[test]
fn tables_have_values_by_names(rt: HostRuntime) -> Result<(), Fail> {
    let mut table = Table::new(rt.alloc());
    table.put(b"a", 1)?;
    table.put_first(b"b", 2)?;
    table.put_first(b"a", 3)?;
    assert_eq!(rt; table.get(b"a"), Some(&1));
    assert_eq!(rt; table.position(b"b"), Some(1));
    assert!(rt; table.replace(b"b", 5));
    assert_eq!(rt; table.get(b"b"), Some(&5));
    assert!(rt; !table.replace(b"c", 6));
    Ok(())
}
