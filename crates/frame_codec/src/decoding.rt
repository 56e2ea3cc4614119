//! From bytes to values.
ghost use Rattle.std.specs.Prelude.{◌≡◌, ◌≤◌, length};
ghost use Rattle.can_model.specs.Validity.{IsOfValidDatabase};
ghost use Rattle.can_model.specs.Frame.{AreRawValues, sum_of_bits, signal_bit, value_in};
ghost use Rattle.can_model.specs.Place.{IsPlaced};
ghost use Rattle.frame_codec.specs.Reads.{HasRead, DropsInactive};

use crate::bits::is_one;
use can_model::{Message, Signal, active_in, place};

/// The values of the message's signals in these bytes, of which there may be more than its length:
/// of each active signal its value, as two's complement where it is signed, and none of the others.
/// No memory is taken.
pub fn decode(message: &Message, frame: &[u8], values: &mut [Option<i128>])
    requires valid { IsOfValidDatabase message.now }
    requires values { length values.old ≡ length message.now.signals }
    requires frame { message.now.length ≤ length frame.now }
    ensures { AreRawValues message.now frame.now values.new }
{
    read_all(message, frame, values);
    drop_inactive(message, values);
}

/// The value of each signal, as if all were active.
fn read_all(message: &Message, frame: &[u8], values: &mut [Option<i128>])
    requires valid { IsOfValidDatabase message.now }
    requires values { length values.old ≡ length message.now.signals }
    requires frame { message.now.length ≤ length frame.now }
    ensures { HasRead message.now frame.now (length message.now.signals) values.new }
{
    let signals = message.signals.items();
    for index in 0..signals.len() {
        values[index] = Some(read(&signals[index], frame));
    }
}

/// Takes their values from the signals that are not active.
fn drop_inactive(message: &Message, values: &mut [Option<i128>])
    ensures { DropsInactive message.now values.old (length values.old) values.new }
{
    for index in 0..values.len() {
        if !active_in(message, index, values) {
            values[index] = None;
        }
    }
}

/// The value of the signal in these bytes.
fn read(signal: &Signal, frame: &[u8]) -> i128
    requires { IsPlaced signal.now (length frame.now) }
    ensures { result ≡ value_in frame.now signal.now }
{
    let bits = i128::from(read_bits(signal, frame));
    if signal.signed && is_one(frame, place(signal, signal.length - 1)) {
        bits - (1 << signal.length)
    } else {
        bits
    }
}

/// The sum of 2^k over the signal's bits k that are 1.
fn read_bits(signal: &Signal, frame: &[u8]) -> u64
    requires { IsPlaced signal.now (length frame.now) }
    ensures { result ≡ sum_of_bits (signal_bit frame.now signal.now) signal.now.length }
{
    let mut sum = 0u64;
    for k in 0..signal.length {
        if is_one(frame, place(signal, k)) {
            sum += 1 << k;
        }
    }
    sum
}
