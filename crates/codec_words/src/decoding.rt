//! The report of `decode`.
ghost use Rattle.std.specs.Prelude.{◌≡◌, ◌++◌, IfOk, OnOk};
ghost use Rattle.std.specs.Fmt.{signed_decimal};
ghost use Rattle.std.specs.Option.{option_map};
ghost use Rattle.can_model.specs.Validity.{IsOfValidDatabase};
ghost use Rattle.codec_words.specs.Given.{line_of};
ghost use Rattle.codec_words.specs.Reports.{IsValuesReport, value_line, value_lines};

use can_model::{Message, Signal};
use cg_out::Memory;
use frame_codec::decode;
use itoa::Buffer;
use std::alloc::{AllocError, Global};

/// The report of the values in the first bytes of a frame: `NAME=VALUE` for each signal that is
/// active, a line each, in the order of the message. There is none of a frame of fewer bytes than
/// the message has.
pub fn values_report(
    alloc: Global,
    message: &Message,
    frame: &[u8],
) -> Result<Option<Vec<u8>>, Memory>
    requires { IsOfValidDatabase message.now }
    ensures { IfOk result (λ report. IsValuesReport message.now frame.now (option_map (λ v. v.items) report)) }
{
    if frame.len() < message.length as usize {
        return Ok(None);
    }
    let signals = message.signals.items();
    let mut values = vec![in alloc; None; signals.len()]?;
    decode(message, frame, &mut values);
    let mut report = Vec::new(alloc);
    put_lines(&mut report, signals, &values)?;
    Ok(Some(report))
}

fn put_lines(
    out: &mut Vec<u8>,
    signals: &[Signal],
    values: &[Option<i128>],
) -> Result<(), AllocError>
    ensures { OnOk result (out.new.items ≡ out.old.items ++ value_lines signals.now values.now) }
{
    for (signal, value) in signals.iter().zip(values) {
        put_line(out, signal, *value)?;
    }
    Ok(())
}

/// Appends the line of a signal that has a value.
#[tactic(auto, unfolding(crate::specs::Reports::value_line))]
fn put_line(out: &mut Vec<u8>, signal: &Signal, value: Option<i128>) -> Result<(), AllocError>
    ensures { OnOk result (out.new.items ≡ out.old.items ++ line_of signal.now value) }
{
    if let Some(number) = value {
        out.extend_from_slice(signal.name.bytes())?;
        out.push(b'=')?;
        out.extend_from_slice(Buffer::new().format(number).as_bytes())?;
        out.push(b'\n')?;
    }
    Ok(())
}
