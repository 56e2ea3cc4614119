//! The text of a unit of C (ISO/IEC 9899:1999, 6.4 to 6.10): parts come in, the bytes that
//! `c_printed` defines for them go out, in time that grows as these do.
//!
//! ```text
//! print(&PrintUnit { parts }, &mut out)?   // of a prototype and a blank: int f(void);\n\n
//! ```
#![tactic(auto)]

ghost use Rattle.std.specs.Prelude.{◌≡◌, ◌++◌, OnOk};
ghost use Rattle.c_printer.specs.BarePart.{printed_unit};

mod constant;
mod expression;
mod item;
pub mod laws;
mod part;
mod spelling;
mod statement;

pub use item::{print_function, print_struct};
use part::print_part;
pub use part::{Part, PrintUnit};
use std::alloc::AllocError;

/// Appends the text of the unit to `out`. The one error is that memory is wanting; nothing is
/// promised of what `out` then holds.
pub fn print(unit: &PrintUnit, out: &mut Vec<u8>) -> Result<(), AllocError>
    ensures appends { OnOk result (out.new.items ≡ out.old.items ++ printed_unit unit.now) }
{
    for part in unit.parts.items() {
        print_part(part, out)?;
    }
    Ok(())
}
