//! `limit_fraction`: decimals, scales and limits.
use limit_fraction::{Decimal, NumberFault, Range, ScaleTooWide, UnitScale, bounds, scale};
use std::test::Fail;

/// The first, the second, the filling and the last byte of a long text, with its mantissa and its
/// exponent.
const LONG_NUMBERS: &[(u8, u8, u8, u8, i128, i16)] = &[
    (b'0', b'0', b'0', b'7', 7, 0),
    (b'0', b'e', b'9', b'9', 0, 0),
    (b'1', b'e', b'0', b'5', 1, 5),
];

/// A text of 3,000 bytes with these at its front and its end.
fn long_text(first: u8, second: u8, filling: u8, last: u8) -> [u8; 3000] {
    let mut text = [filling; 3000];
    text[0] = first;
    text[1] = second;
    text[2999] = last;
    text
}

/// A text with its mantissa and its exponent.
const NUMBERS: &[(&[u8], i128, i16)] = &[
    (b"229.52", 22952, -2),
    (b"0.10e1", 1, 0),
    (b"-0.00e7", 0, 0),
    (b"+.5E-3", 5, -4),
    (b"-12.e2", -12, 2),
    (
        b"12345678901234567890123456780",
        1234567890123456789012345678,
        1,
    ),
    (b"0e99999999999999999999999999999999999999999", 0, 0),
    (b"1e-00000000000000000000000000000000000000005", 1, -5),
    (b"10e399", 1, 400),
];

const NO_NUMBERS: &[&[u8]] = &[
    b".",
    b"1e",
    b"+-1",
    b"1 ",
    b"12345678901234567890123456789",
    b"10e400",
    b"1e-401",
    b"1e99999999999999999999999999999999999999999",
];

#[test]
fn texts_are_numbers(rt: HostRuntime) -> Result<(), Fail> {
    for &(text, mantissa, exponent) in NUMBERS {
        assert_eq!(rt; Decimal::read(text), Ok(Decimal { mantissa, exponent }));
    }
    for &text in NO_NUMBERS {
        assert_eq!(rt; Decimal::read(text), Err(NumberFault));
    }
    assert_eq!(rt; Decimal::read(b"-2.50e1")?.negated().whole(), Some(25));
    assert_eq!(rt;
        Decimal::read(b"1.50")?.negated(),
        Decimal::read(b"-15e-1")?
    );
    assert_eq!(rt; Decimal::read(b"-0")?.negated(), Decimal::read(b"0")?);
    assert_eq!(rt; Decimal::read(b"18446744073709551617")?.whole(), None);
    Ok(())
}

#[test]
fn long_texts_are_numbers(rt: HostRuntime) -> Result<(), Fail> {
    for &(first, second, filling, last, mantissa, exponent) in LONG_NUMBERS {
        let text = long_text(first, second, filling, last);
        assert_eq!(rt; Decimal::read(&text), Ok(Decimal { mantissa, exponent }));
    }
    assert_eq!(rt;
        Decimal::read(&long_text(b'1', b'0', b'0', b'0')),
        Err(NumberFault)
    );
    Ok(())
}

const LIMITS: &[(&str, &str, &str, i32, i32, Range)] = &[
    (
        "0.1",
        "0.05",
        "0.95",
        0i32,
        255i32,
        Range::Span { low: 1, high: 9 },
    ),
    ("1", "3", "1", 0, 255, Range::Empty),
    (
        "-0.5",
        "-10",
        "10",
        -128,
        127,
        Range::Span { low: -20, high: 20 },
    ),
    (
        "1",
        "-1",
        "3.4E+38",
        0,
        255,
        Range::Span { low: 0, high: 255 },
    ),
    ("0", "-1", "1", 0, 255, Range::Span { low: 0, high: 255 }),
    ("0", "1", "2", 0, 255, Range::Empty),
];

#[test]
fn limits_are_exact(rt: HostRuntime) -> Result<(), Fail> {
    let zero = Decimal::read(b"0")?;
    for &(factor, minimum, maximum, low, high, range) in LIMITS {
        let unit = scale(Decimal::read(factor.as_bytes())?, zero)?;
        let minimum = Decimal::read(minimum.as_bytes())?;
        let maximum = Decimal::read(maximum.as_bytes())?;
        let low = i128::from(low);
        let high = i128::from(high);
        let found = bounds(&unit, Some(minimum), Some(maximum), low, high);
        assert_eq!(rt; found, range, "of {factor}");
    }
    let widest = UnitScale {
        factor: (1 << 60) - 1,
        offset: (1 << 100) - 1,
        exponent: 0,
    };
    let low = -(1 << 64);
    let high = 1 << 64;
    assert_eq!(rt;
        bounds(&widest, None, None, low, high),
        Range::Span { low, high }
    );
    let one = Decimal::read(b"1")?;
    assert_eq!(rt; scale(Decimal::read(b"1E-30")?, one)?.exponent, -30);
    assert_eq!(rt; scale(Decimal::read(b"1E-31")?, one), Err(ScaleTooWide));
    Ok(())
}
