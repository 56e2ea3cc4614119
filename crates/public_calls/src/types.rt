//! `c_widths` and `c_types`: types of integers, and a unit under both data models.
use c_mean::IntType::{
    Int, Long, LongLong, SignedChar, UnsignedChar, UnsignedInt, UnsignedLong, UnsignedLongLong,
    UnsignedShort,
};
use c_mean::{Constant, IntType, Spelled, Unit};
use c_types::{Widths, check, typed};
use cg_out::List;
use std::test::Fail;

/// A type, and what it is promoted to.
const PROMOTED: &[(IntType, IntType)] = &[
    (IntType::Bool, Int),
    (SignedChar, Int),
    (UnsignedShort, Int),
    (UnsignedInt, UnsignedInt),
    (Long, Long),
];

/// Two types, and their common type under ILP32 and under LP64.
const COMMON: &[(IntType, IntType, IntType, IntType)] = &[
    (Int, Int, Int, Int),
    (Int, UnsignedInt, UnsignedInt, UnsignedInt),
    (UnsignedInt, Long, UnsignedLong, Long),
    (UnsignedLong, LongLong, LongLong, UnsignedLongLong),
    (Long, Int, Long, Long),
];

/// A constant's value, base, `u` and count of `l`, and its type under ILP32 and under LP64.
type Typed = (u64, u8, bool, u8, Option<IntType>, Option<IntType>);

const CONSTANTS: &[Typed] = &[
    (1, 10, false, 0, Some(Int), Some(Int)),
    (2_147_483_648, 10, false, 0, Some(LongLong), Some(Long)),
    (
        4_294_967_295,
        16,
        false,
        0,
        Some(UnsignedInt),
        Some(UnsignedInt),
    ),
    (
        4_294_967_296,
        10,
        true,
        0,
        Some(UnsignedLongLong),
        Some(UnsignedLong),
    ),
    (1, 8, false, 2, Some(LongLong), Some(LongLong)),
    (9_223_372_036_854_775_808, 10, false, 0, None, None),
];

/// A number, and what it is in a type of both models.
const CONVERTED: &[(i128, IntType, i128)] = &[
    (-7, IntType::Bool, 1),
    (0, IntType::Bool, 0),
    (300, UnsignedChar, 44),
    (200, SignedChar, -56),
    (-1, UnsignedInt, 4_294_967_295),
    (18_446_744_073_709_551_615, LongLong, -1),
];

#[test]
#[tactic(auto, unfolding(c_widths::specs::DataModel::is_listed))]
fn integers_have_their_types(rt: HostRuntime) -> Result<(), Fail> {
    for &(kind, wanted) in PROMOTED {
        assert_eq!(rt; Widths::<32, 32, 32>::promote(kind), wanted);
        assert_eq!(rt; Widths::<32, 64, 64>::promote(kind), wanted);
    }
    for &(left, right, short, long) in COMMON {
        assert_eq!(rt; Widths::<32, 32, 32>::common(left, right), short);
        assert_eq!(rt; Widths::<32, 64, 64>::common(right, left), long);
    }
    assert_eq!(rt; Widths::<32, 32, 32>::type_of(Spelled::Size), UnsignedInt);
    Ok(())
}

#[test]
#[tactic(auto, unfolding(c_widths::specs::DataModel::is_listed))]
fn numbers_have_their_types(rt: HostRuntime) -> Result<(), Fail> {
    for &(value, base, unsigned, longs, short, long) in CONSTANTS {
        let constant = Constant {
            value,
            base,
            unsigned,
            longs,
        };
        assert_eq!(rt;
            Widths::<32, 32, 32>::constant_type(&constant),
            short,
            "of {value}"
        );
        assert_eq!(rt;
            Widths::<32, 64, 64>::constant_type(&constant),
            long,
            "of {value}"
        );
    }
    for &(number, kind, wanted) in CONVERTED {
        assert_eq!(rt;
            Widths::<32, 32, 32>::convert(number, kind),
            wanted,
            "of {number}"
        );
        assert_eq!(rt;
            Widths::<32, 64, 64>::convert(number, kind),
            wanted,
            "of {number}"
        );
    }
    Ok(())
}

#[test]
#[tactic(auto, unfolding(c_widths::specs::DataModel::is_listed))]
fn an_empty_unit_has_no_fault(rt: HostRuntime) -> Result<(), Fail> {
    let unit = Unit {
        items: List::new(rt.alloc()),
    };
    assert!(rt; check(rt.alloc(), &unit).is_ok());
    match typed::<32, 64, 64>(rt.alloc(), &unit) {
        Ok(typed) => {
            assert!(rt; typed.tree().items.items().is_empty());
            assert!(rt; typed.prototype(b"f").is_none());
            assert!(rt; typed.fields(b"s").is_none());
        }
        Err(_) => assert!(rt; false, "a fault"),
    }
    Ok(())
}
