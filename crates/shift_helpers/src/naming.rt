//! The names of the helpers.
ghost use Rattle.std.specs.Prelude.{◌≡◌};
ghost use Rattle.shift_helpers.specs.HelperTree as spec;

use crate::helper::HelperKind;

/// The name of a helper for values of so many bits.
#[tactic(auto, unfolding(crate::specs::HelperTree::helper_name))]
pub fn helper_name(kind: HelperKind, width: u32) -> &'static [u8]
    ensures { result.now ≡ spec.helper_name kind width }
{
    match kind {
        HelperKind::PackLeft => {
            if width == 8 {
                b"pack_left_shift_u8"
            } else if width == 16 {
                b"pack_left_shift_u16"
            } else if width == 32 {
                b"pack_left_shift_u32"
            } else {
                b"pack_left_shift_u64"
            }
        }
        HelperKind::PackRight => {
            if width == 8 {
                b"pack_right_shift_u8"
            } else if width == 16 {
                b"pack_right_shift_u16"
            } else if width == 32 {
                b"pack_right_shift_u32"
            } else {
                b"pack_right_shift_u64"
            }
        }
        HelperKind::UnpackLeft => {
            if width == 8 {
                b"unpack_left_shift_u8"
            } else if width == 16 {
                b"unpack_left_shift_u16"
            } else if width == 32 {
                b"unpack_left_shift_u32"
            } else {
                b"unpack_left_shift_u64"
            }
        }
        HelperKind::UnpackRight => {
            if width == 8 {
                b"unpack_right_shift_u8"
            } else if width == 16 {
                b"unpack_right_shift_u16"
            } else if width == 32 {
                b"unpack_right_shift_u32"
            } else {
                b"unpack_right_shift_u64"
            }
        }
    }
}
