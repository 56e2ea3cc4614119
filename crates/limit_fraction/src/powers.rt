//! Sizes in 128 bits, where a size of 2^126 stands for every greater one.
ghost use Rattle.std.specs.Prelude.{◌≡◌, ◌*◌, ◌^◌, ◌≤◌, min};
ghost use Rattle.limit_fraction.specs.Digits.{signed};

/// The size at which numbers are cut off.
pub(crate) const LIMIT: u128 = 1 << 126;

/// `size` times ten to the power `power`, or 2^126 where that is less.
pub(crate) fn times_ten_to(size: u128, power: usize) -> u128
    ensures { result ≡ min (size * 10 ^ power) (2 ^ 126) }
{
    if power <= 38 {
        size.saturating_mul(10u128.pow(power as u32)).min(LIMIT)
    } else if size == 0 {
        0
    } else {
        LIMIT
    }
}

/// `size`, or `-size` after a minus.
pub(crate) fn with_sign(negative: bool, size: u128) -> i128
    requires { size ≤ 2 ^ 126 }
    ensures { result ≡ signed negative size }
{
    if negative {
        -(size as i128)
    } else {
        size as i128
    }
}
