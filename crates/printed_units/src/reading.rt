//! Texts that are read, and the items of a unit in one line.
use c_mean::{CFault, Unit};
use c_shown::{Line, unit_of, write_items};
use cg_out::Memory;
use std::alloc::Global;

/// A header behind which each name of the standard has its meaning.
pub(super) const ALL: &str = "#include <stdint.h>
#include <stddef.h>
#include <stdbool.h>
#include <string.h>
";

/// The same, but that `true` and `false` are names.
pub(super) const WITHOUT_BOOL: &str = "#include <stdint.h>
#include <stddef.h>
#include <string.h>
";

/// The template with the word in the place of each `@`.
pub(super) fn filled(alloc: Global, template: &str, word: &[u8]) -> Result<Vec<u8>, Memory> {
    let mut text = Vec::new(alloc);
    for byte in template.as_bytes() {
        if *byte == b'@' {
            text.extend_from_slice(word)?;
        } else {
            text.push(*byte)?;
        }
    }
    Ok(text)
}

/// The unit of a text that includes this header.
pub(super) fn unit_behind(alloc: Global, header: &str, text: &[u8]) -> Result<Unit, CFault> {
    let source = filled(alloc, "#include \"can.h\"\n@", text)?;
    unit_of(alloc, "can.h", header.as_bytes(), source.as_slice())
}

/// The items of a unit in one line.
pub(super) fn line_of(alloc: Global, unit: &Unit) -> Result<Vec<u8>, Memory> {
    let mut line = Line::new(alloc, false);
    write_items(&mut line, unit.items.items())?;
    Ok(line.into_bytes())
}
