//! How the bits of a segment are moved out of their byte.
ghost use Rattle.std.specs.Prelude.{◌≡◌};
ghost use Rattle.bit_layout.specs.Covers.{IsWithin};
ghost use Rattle.gen_pack.specs.SegmentMove.{mask_of};
ghost use Rattle.gen_unpack.specs.SegmentRead as spec;

use bit_layout::Segment;
use shift_helpers::HelperKind;

/// Which helper moves a segment out of its byte: up to a higher bit, or the same one, the left one.
pub fn unpack_kind(segment: Segment) -> HelperKind
    ensures { result ≡ spec.unpack_kind segment }
{
    if segment.byte_low <= segment.signal_low {
        HelperKind::UnpackLeft
    } else {
        HelperKind::UnpackRight
    }
}

/// By how many bits.
pub fn unpack_shift(segment: Segment) -> u32
    ensures { result ≡ spec.unpack_shift segment }
{
    if segment.byte_low <= segment.signal_low {
        segment.signal_low - segment.byte_low
    } else {
        segment.byte_low - segment.signal_low
    }
}

/// The segment's bits of the byte.
pub fn mask_of(segment: Segment) -> u32
    requires { IsWithin 64 segment }
    ensures { result ≡ mask_of segment }
{
    (1 << (segment.byte_low + segment.count)) - (1 << segment.byte_low)
}
