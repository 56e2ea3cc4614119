//! How the bits of a segment are moved into their byte.
ghost use Rattle.std.specs.Prelude.{◌≡◌};
ghost use Rattle.bit_layout.specs.Covers.{IsWithin};
ghost use Rattle.gen_pack.specs.SegmentMove as spec;

use bit_layout::Segment;
use shift_helpers::HelperKind;

/// Which helper moves a segment into its byte: up to a higher bit, or the same one, the left one.
pub fn pack_kind(segment: Segment) -> HelperKind
    ensures { result ≡ spec.pack_kind segment }
{
    if segment.signal_low <= segment.byte_low {
        HelperKind::PackLeft
    } else {
        HelperKind::PackRight
    }
}

/// By how many bits.
pub fn pack_shift(segment: Segment) -> u32
    ensures { result ≡ spec.pack_shift segment }
{
    if segment.signal_low <= segment.byte_low {
        segment.byte_low - segment.signal_low
    } else {
        segment.signal_low - segment.byte_low
    }
}

/// The segment's bits of the byte.
pub fn mask_of(segment: Segment) -> u32
    requires { IsWithin 64 segment }
    ensures { result ≡ spec.mask_of segment }
{
    (1 << (segment.byte_low + segment.count)) - (1 << segment.byte_low)
}
