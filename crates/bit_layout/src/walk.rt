//! The segments of a signal, by rising byte.
ghost use Rattle.std.specs.Prelude.{◌≡◌, ◌+◌, ◌*◌, ◌^◌, ◌<◌, ◌≤◌, IfSome};
ghost use Rattle.bit_layout.specs.Segments.{segments_of};
ghost use Rattle.bit_layout.specs.Covers.{Covers, IsWithin};
ghost use Rattle.bit_layout.specs.Taken.{IsFirstTaken};
ghost use Rattle.bit_layout.specs.Numbers.{from_at, end_at, segment_at};

use can_model::Signal;
use std::marker::Model;

/// Bits of a signal that stand in one byte of its frame, side by side.
///
/// Bit `signal_low + j` of the signal is bit `byte_low + j` of the byte, for each j below `count`;
/// bit 0 is the least significant.
#[derive(Clone, Copy, Debug, PartialEq, Eq)]
pub struct Segment {
    /// The byte of the frame, counted from 0.
    pub byte: u32,
    pub signal_low: u32,
    pub byte_low: u32,
    /// From 1 to 8.
    pub count: u32,
}

/// The segments of a signal that are still to come; contracts see the list of them.
#[derive(Drop)]
pub struct SegmentWalk {
    motorola: bool,
    /// Where the first bit stands in the signal's own order of places.
    from: u32,
    length: u32,
    /// The byte of the next segment.
    byte: u32,
    /// The byte behind the last.
    end: u32,
    ghost few: { from + length < 2 ^ 20 },
    ghost begun: { from ≤ 8 * byte + 7 },
    ghost ends: { 8 * end ≤ from + length + 7 },
    ghost some: { 8 * end ≤ from + 8 * length },
    ghost short: { length ≤ 64 },
}

impl Model for SegmentWalk {
    ghost use Rattle.std.specs.Prelude.{List};
    ghost use Rattle.bit_layout.specs.declared.walk.Segment.{Segment};
    ghost use Rattle.bit_layout.specs.Numbers.{segments_from};

    ghost Value = { List Segment };

    ghost view = { λ w. segments_from w.motorola w.from w.length w.byte w.end };
}

/// The segments of a signal: one for each byte in which bits of it stand, by rising byte.
///
/// A signal of no bits has none. No memory is taken.
pub fn segments(signal: &Signal) -> SegmentWalk
    requires length { signal.now.length ≤ 64 }
    requires start { signal.now.start ≤ 65535 }
    ensures are { result ≡ segments_of signal.now }

    // Each bit of the signal is in one of them alone, which tells its place.
    ensures covers { Covers signal.now result }
{
    let from = from_at(signal.motorola, signal.start);
    SegmentWalk {
        motorola: signal.motorola,
        from,
        length: signal.length,
        byte: from / 8,
        end: end_at(from, signal.length),
    }
}

/// Where the first bit stands in the signal's own order of places: for Motorola each byte is read
/// from its most significant bit on.
fn from_at(motorola: bool, start: u32) -> u32
    requires { start < 2 ^ 20 }
    ensures value { result ≡ from_at motorola start }
    ensures near { result ≤ start + 7 }
{
    if motorola {
        8 * (start / 8) + (7 - start % 8)
    } else {
        start
    }
}

/// The byte behind the last.
fn end_at(from: u32, length: u32) -> u32
    requires { from + length < 2 ^ 20 }
    ensures { result ≡ end_at from length }
{
    if length == 0 {
        from / 8
    } else {
        (from + length - 1) / 8 + 1
    }
}

/// The segment of a byte.
fn segment_at(motorola: bool, from: u32, length: u32, byte: u32) -> Segment
    requires few { from + length < 2 ^ 20 }
    requires begun { from ≤ 8 * byte + 7 }
    requires going { 8 * byte < from + length }
    ensures { result ≡ segment_at motorola from length byte }
{
    let low = from.max(8 * byte);
    let high = (from + length).min(8 * byte + 8);
    let (signal_low, byte_low) = if motorola {
        (from + length - high, 8 * byte + 8 - high)
    } else {
        (low - from, low - 8 * byte)
    };
    Segment {
        byte,
        signal_low,
        byte_low,
        count: high - low,
    }
}

impl SegmentWalk {
    /// Takes the next segment; none where all were given. No memory is taken.
    #[tactic(auto, using(crate::proofs::Walking::walk_step))]
    pub fn next(&mut self) -> Option<Segment>
        ensures taken { IsFirstTaken result self.old self.new }
        ensures within { IfSome result (λ g. IsWithin 64 g) }
    {
        if self.byte < self.end {
            let segment = segment_at(self.motorola, self.from, self.length, self.byte);
            self.byte += 1;
            Some(segment)
        } else {
            None
        }
    }
}
