//! `can_model`: the places of bits and the raw values of signals.
use can_model::{Signal, has_bits, is_raw, place};
use cg_out::{List, Text};
use limit_fraction::Decimal;
use std::alloc::Global;
use std::test::Fail;

/// The start, the length, whether it is Motorola, a bit and its place.
const PLACES: &[(u32, u32, bool, u32, u32)] = &[
    // Ten bits from bit 6 of byte 0 on.
    (6, 10, false, 0, 6),
    (6, 10, false, 1, 7),
    (6, 10, false, 2, 8),
    (6, 10, false, 9, 15),
    // Twelve bits from bit 0 of byte 0 down, over byte 1, to bit 5 of byte 2.
    (0, 12, true, 11, 0),
    (0, 12, true, 10, 15),
    (0, 12, true, 3, 8),
    (0, 12, true, 2, 23),
    (0, 12, true, 0, 21),
    // Eight bytes.
    (0, 64, false, 63, 63),
    (7, 64, true, 63, 7),
    (7, 64, true, 0, 56),
    // The last start.
    (65535, 64, false, 63, 65598),
    (65535, 64, true, 63, 65535),
    (65535, 64, true, 0, 65584),
    (65535, 1, true, 0, 65535),
];

fn signal(alloc: Global, start: u32, length: u32, motorola: bool) -> Result<Signal, Fail> {
    Ok(Signal {
        name: Text::copy_of(alloc, b"S")?,
        start,
        length,
        motorola,
        signed: false,
        is_float: false,
        factor: Decimal::read(b"1")?,
        offset: Decimal::read(b"0")?,
        min: None,
        max: None,
        initial: None,
        choices: List::new(alloc),
        unit: Text::copy_of(alloc, b"")?,
        comment: Text::copy_of(alloc, b"")?,
        parent: None,
        line: 1,
    })
}

#[test]
fn bits_have_places(rt: HostRuntime) -> Result<(), Fail> {
    for &(start, length, motorola, k, wanted) in PLACES {
        let signal = signal(rt.alloc(), start, length, motorola)?;
        assert!(rt; k < signal.length && signal.length <= 64 && signal.start <= 65535);
        assert_eq!(rt; place(&signal, k), wanted, "of bit {k} from {start} on");
    }
    Ok(())
}

/// The length, whether it is signed, a value and whether it is a raw one.
const RAW_VALUES: &[(u32, bool, i128, bool)] = &[
    (1, false, -1, false),
    (1, false, 0, true),
    (1, false, 1, true),
    (1, false, 2, false),
    (1, true, -2, false),
    (1, true, -1, true),
    (1, true, 0, true),
    (1, true, 1, false),
    (8, false, -1, false),
    (8, false, 255, true),
    (8, false, 256, false),
    (8, true, -129, false),
    (8, true, -128, true),
    (8, true, 127, true),
    (8, true, 128, false),
    (64, false, -1, false),
    (64, false, 18446744073709551615, true),
    (64, false, 18446744073709551616, false),
    (64, true, -9223372036854775809, false),
    (64, true, -9223372036854775808, true),
    (64, true, 9223372036854775807, true),
    (64, true, 9223372036854775808, false),
    (0, false, 0, false),
    (0, true, 0, false),
    (65, false, 0, false),
    (4294967295, true, 0, false),
];

#[test]
fn signals_have_raw_values(rt: HostRuntime) {
    for &(length, signed, value, wanted) in RAW_VALUES {
        assert_eq!(rt;
            is_raw(length, signed, value),
            wanted,
            "{value} of {length} bits"
        );
    }
    for (length, wanted) in [
        (0, false),
        (1, true),
        (64, true),
        (65, false),
        (4294967295, false),
    ] {
        assert_eq!(rt; has_bits(length), wanted, "of {length}");
    }
}
