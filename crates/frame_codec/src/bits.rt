//! Single bits of bytes and of values.
ghost use Rattle.std.specs.Prelude.{◌≡◌, ◌<◌, ◌*◌, ◌||◌, ◌==◌, ℕ, length};
ghost use Rattle.can_model.specs.Frame.{is_one, has_bit_in};
ghost use Rattle.frame_codec.specs.Ones.{AreBytes};

/// Whether the bit at this place is 1: place n is bit `n % 8` of byte `n / 8`.
pub fn is_one(bytes: &[u8], place: u32) -> bool
    requires { place < 8 * length bytes.now }
    ensures { result ≡ is_one bytes.now place }
{
    bytes[(place / 8) as usize] >> (place % 8) & 1 == 1
}

/// Makes the bit at this place 1, and leaves all others.
pub fn set_one(bytes: &mut [u8], place: u32)
    requires { place < 8 * length bytes.old }
    ensures size { length bytes.new ≡ length bytes.old }
    ensures bytes { AreBytes bytes.old → AreBytes bytes.new }
    ensures bits { (p : ℕ) → is_one bytes.new p ≡ (is_one bytes.old p || p == place) }
{
    bytes[(place / 8) as usize] |= 1 << (place % 8);
}

/// Whether bit `k` of the value is 1, in two's complement.
pub fn has_bit(value: i128, k: u32) -> bool
    requires { k < 128 }
    ensures { result ≡ has_bit_in value k }
{
    value >> k & 1 == 1
}
