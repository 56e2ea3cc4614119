//! Numbers in words.
ghost use Rattle.std.specs.Prelude.{◌≡◌};
ghost use Rattle.c_types.specs.ExpressionTypes as types;
ghost use Rattle.c_widths.specs.DataModel.{IsModel, model_of};
ghost use Rattle.exec_words.specs.NumberWord as spec;

use c_mean::{CType, IntType};
use c_widths::Widths;
use command_words::number_in;

/// The number that a word gives a type, where that is a type of integers and holds it.
pub(crate) fn number_of<const INT: u32, const LONG: u32, const PTR: u32>(
    kind: &CType,
    word: &[u8],
) -> Option<i128>
    requires { IsModel INT LONG PTR }
    ensures { result ≡ spec.number_of (model_of INT LONG PTR) (types.integer_type (model_of INT LONG PTR) kind.now) word.now }
{
    match kind {
        CType::Integer(spelled) => {
            let number = number_in(word)?;
            held_by::<INT, LONG, PTR>(Widths::<INT, LONG, PTR>::type_of(*spelled), number)
        }
        _ => None,
    }
}

/// A number, where a type holds it.
fn held_by<const INT: u32, const LONG: u32, const PTR: u32>(
    kind: IntType,
    number: i128,
) -> Option<i128>
    requires { IsModel INT LONG PTR }
    ensures { result ≡ spec.held_by (model_of INT LONG PTR) kind number }
{
    if Widths::<INT, LONG, PTR>::convert(number, kind) == number {
        Some(number)
    } else {
        None
    }
}
