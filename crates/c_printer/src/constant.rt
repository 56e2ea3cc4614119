//! The texts of constants (ISO/IEC 9899:1999, 6.4.4.1).
ghost use Rattle.std.specs.Prelude.{◌≡◌, ◌++◌, ◌%◌, false, OnOk, if◌then◌else◌};
ghost use Rattle.std.specs.Fmt.{digits, digit_glyph};
ghost use Rattle.c_printed.specs.Spelling as spec;

use c_text::Constant;
use itoa::Buffer;
use std::alloc::AllocError;

/// Appends a constant, in a function (`wide`) or in the body of a macro; the `u` of its suffix
/// stands before the `l`.
pub fn print_constant(constant: Constant, wide: bool, out: &mut Vec<u8>) -> Result<(), AllocError>
    ensures { OnOk result (out.new.items ≡ out.old.items ++ spec.constant_text wide constant) }
{
    print_value(constant.value, constant.base, wide, out)?;
    out.extend_from_slice(unsigned_suffix(constant.unsigned))?;
    out.extend_from_slice(long_suffix(constant.longs))
}

fn unsigned_suffix(unsigned: bool) -> &'static [u8]
    ensures { result.now ≡ spec.u_text unsigned }
{
    if unsigned { b"u" } else { b"" }
}

fn long_suffix(longs: u8) -> &'static [u8]
    ensures { result.now ≡ spec.l_text longs }
{
    match longs {
        0 => b"",
        1 => b"l",
        _ => b"ll",
    }
}

/// Appends a value in the base 8, behind `0`, in the base 10, or in the base 16, behind `0x`.
fn print_value(value: u64, base: u8, wide: bool, out: &mut Vec<u8>) -> Result<(), AllocError>
    ensures { OnOk result (out.new.items ≡ out.old.items ++ spec.value_text wide base value) }
{
    if base > 10 {
        out.extend_from_slice(b"0x")?;
        print_hex(value, wide, out)
    } else if base < 10 {
        out.push(b'0')?;
        print_octal_digits(value, out)
    } else {
        out.extend_from_slice(Buffer::new().format(value).as_bytes())
    }
}

#[tactic(auto, using(crate::proofs::Digits::hex_whole))]
fn print_hex(value: u64, wide: bool, out: &mut Vec<u8>) -> Result<(), AllocError>
    ensures { OnOk result (out.new.items ≡ out.old.items ++ spec.hex_digits wide value) }
{
    print_hex_digits(value, least_width(value, wide), out)
}

/// How many hexadecimal digits a value has at least.
fn least_width(value: u64, wide: bool) -> u32
    ensures { result ≡ (if wide then spec.hex_width value else 0) }
{
    if wide { hex_width(value) } else { 0 }
}

/// The fewest of 2, 4, 8 and 16 digits that the value takes.
fn hex_width(value: u64) -> u32
    ensures { result ≡ spec.hex_width value }
{
    if value < 1 << 8 {
        2
    } else if value < 1 << 16 {
        4
    } else if value < 1 << 32 {
        8
    } else {
        16
    }
}

/// Appends the hexadecimal digits of a value, with zeros before them to so many.
#[tactic(auto, using(crate::proofs::Digits::hex_steps))]
fn print_hex_digits(value: u64, width: u32, out: &mut Vec<u8>) -> Result<(), AllocError>
    ensures { OnOk result (out.new.items ≡ out.old.items ++ spec.padded width (digits 16 false value)) }
{
    if value >= 16 || width > 1 {
        print_hex_digits(value / 16, width.saturating_sub(1), out)?;
    }
    out.push(last_digit(value))?;
    Ok(())
}

/// The last hexadecimal digit of a value.
fn last_digit(value: u64) -> u8
    ensures { result ≡ digit_glyph false (value % 16) }
{
    let digit = (value % 16) as u8;
    if digit < 10 {
        b'0' + digit
    } else {
        b'a' + (digit - 10)
    }
}

/// Appends the octal digits of a value.
#[tactic(auto, using(crate::proofs::Digits::octal_steps))]
fn print_octal_digits(value: u64, out: &mut Vec<u8>) -> Result<(), AllocError>
    ensures { OnOk result (out.new.items ≡ out.old.items ++ digits 8 false value) }
{
    if value >= 8 {
        print_octal_digits(value / 8, out)?;
    }
    out.push(b'0' + (value % 8) as u8)?;
    Ok(())
}
