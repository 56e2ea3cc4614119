//! The report of `encode`.
ghost use Rattle.std.specs.Prelude.{◌≡◌, ℕ, List, Some, length, map, IfOk};
ghost use Rattle.std.specs.Option.{option_map};
ghost use Rattle.can_model.specs.Frame.{IsFrame};
ghost use Rattle.can_model.specs.Validity.{IsOfValidDatabase};
ghost use Rattle.codec_words.specs.Reports.{IsFrameReport, frame_report};

use crate::giving::values_of;
use can_model::Message;
use cg_out::Memory;
use command_words::Word;
use frame_codec::encode;
use std::alloc::{AllocError, Global};

/// The report of the frame in which the signals of a message have the values that words give them:
/// its bytes in hexadecimal digits, on a line.
///
/// Each word is `NAME=VALUE`, cut at its last `=`, with a decimal number that the C field of the
/// signal holds; a signal that no word names has the value 0. There is no report where a word is
/// none of these, or two words name one signal.
pub fn frame_report(
    alloc: Global,
    message: &Message,
    words: &[Word],
) -> Result<Option<Vec<u8>>, Memory>
    requires { IsOfValidDatabase message.now }
    ensures { IfOk result (λ report. IsFrameReport message.now words.now (option_map (λ v. v.items) report)) }
{
    match values_of(alloc, message, words)? {
        Some(values) => Ok(Some(report_of(alloc, message, &values)?)),
        None => Ok(None),
    }
}

/// The report of the frame in which the signals have these values.
fn report_of(alloc: Global, message: &Message, values: &[i128]) -> Result<Vec<u8>, Memory>
    requires valid { IsOfValidDatabase message.now }
    requires values { length values.now ≡ length message.now.signals }
    ensures { IfOk result (λ v. (bytes : List ℕ) × IsFrame message.now (map Some values.now) bytes × (v.items ≡ frame_report bytes)) }
{
    let mut frame = vec![in alloc; 0u8; message.length as usize]?;
    encode(message, values, &mut frame);
    Ok(line_of(alloc, &frame)?)
}

/// The bytes in hexadecimal digits, on a line.
#[tactic(auto, unfolding(crate::specs::Reports::frame_report))]
fn line_of(alloc: Global, bytes: &[u8]) -> Result<Vec<u8>, AllocError>
    ensures { IfOk result (λ v. v.items ≡ frame_report bytes.now) }
{
    let mut line = hex::encode(alloc, bytes)?.into_bytes();
    line.push(b'\n')?;
    Ok(line)
}
