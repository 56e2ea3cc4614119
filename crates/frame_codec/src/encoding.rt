//! From values to bytes.
ghost use Rattle.std.specs.Prelude.{◌≡◌, Some, map, length};
ghost use Rattle.can_model.specs.Validity.{IsOfValidDatabase};
ghost use Rattle.can_model.specs.Frame.{IsFrame};
ghost use Rattle.can_model.specs.Place.{IsPlaced};
ghost use Rattle.frame_codec.specs.Ones.{AddsOnes, IsBitBelow};

use crate::bits::{has_bit, set_one};
use can_model::{Message, Signal, active, place};

/// Writes the bytes of the message in which its signals have these values, one of each.
///
/// Bit k of an active signal is bit k of its value in two's complement, so of a wide value its low
/// bits; what no active signal has is 0. No memory is taken.
pub fn encode(message: &Message, values: &[i128], frame: &mut [u8])
    requires valid { IsOfValidDatabase message.now }
    requires values { length values.now ≡ length message.now.signals }
    requires frame { length frame.old ≡ message.now.length }
    ensures { IsFrame message.now (map Some values.now) frame.new }
{
    frame.fill(0);
    let signals = message.signals.items();
    for index in 0..signals.len() {
        if active(message, index, values) {
            put(&signals[index], values[index], frame);
        }
    }
}

/// Puts the bits of a value that are 1 in the signal's places.
fn put(signal: &Signal, value: i128, frame: &mut [u8])
    requires { IsPlaced signal.now (length frame.old) }
    ensures { AddsOnes frame.old frame.new (IsBitBelow signal.now value signal.now.length) }
{
    for k in 0..signal.length {
        if has_bit(value, k) {
            set_one(frame, place(signal, k));
        }
    }
}
