//! The faults of a whole expression, from the left (ISO/IEC 9899:1999, the constraints of 6.5).
ghost use Rattle.std.specs.Prelude.{◌≡◌};
ghost use Rattle.c_widths.specs.DataModel.{IsModel};
ghost use Rattle.c_types.specs.ExpressionTypes as spec;
ghost use Rattle.c_types.specs.Shown.{setting_of};
ghost use Rattle.c_types.specs.Verdict.{Passes, Sees, wanted_shown};

use crate::expression::{
    binary_type, call, constant, element, member, name, operand_wanted, sort_of, unary_type,
};
use crate::known::Known;
use crate::local::Scopes;
use crate::refusing::{Sort, Wanted, fit, fit_number};
use c_mean::{CFault, Expr, ExprKind, IntType, Place};
use c_widths::Widths;

/// The type of an expression, or its first fault.
#[cycle(expressions)]
#[tactic(auto, using(crate::proofs::Verdicts::verdict_laws))]
pub fn check<'a, const INT: u32, const LONG: u32, const PTR: u32>(
    e: &Expr,
    wanted: Wanted,
    known: &Known<'a, INT, LONG, PTR>,
    scopes: &Scopes<'a>,
) -> Result<Option<IntType>, CFault>
    requires { IsModel INT LONG PTR }
    ensures { Sees result (spec.typing (setting_of known.now) e.now (wanted_shown wanted) scopes.now) }
{
    check_kind(&e.kind, e.place, wanted, known, scopes)
}

#[cycle(expressions)]
#[tactic(auto, using(crate::proofs::Verdicts::verdict_laws))]
fn check_kind<'a, const INT: u32, const LONG: u32, const PTR: u32>(
    kind: &ExprKind,
    place: Place,
    wanted: Wanted,
    known: &Known<'a, INT, LONG, PTR>,
    scopes: &Scopes<'a>,
) -> Result<Option<IntType>, CFault>
    requires { IsModel INT LONG PTR }
    ensures { Sees result (spec.kind_typing (setting_of known.now) kind.now place (wanted_shown wanted) scopes.now) }
{
    match kind {
        ExprKind::Constant(number) => constant::<INT, LONG, PTR>(number, wanted, place),
        ExprKind::Name(text) => name(text.bytes(), wanted, place, known, scopes),
        ExprKind::Null => {
            fit(wanted, Sort::Null, place)?;
            Ok(None)
        }
        ExprKind::Member { base, field } => {
            let kind = member(base.bytes(), field.bytes(), place, known, scopes)?;
            fit_number(wanted, place)?;
            Ok(kind)
        }
        ExprKind::Element { base, index } => {
            element(base.bytes(), place, known, scopes)?;
            fit_number(wanted, place)?;
            check(index.get(), Wanted::AnInteger, known, scopes)?;
            Ok(Some(IntType::UnsignedChar))
        }
        ExprKind::Call { function, args } => {
            let kind = call(function, args.items().len(), wanted, place, known, scopes)?;
            arguments(args.items(), known, scopes)?;
            Ok(kind)
        }
        ExprKind::Unary { op, operand } => {
            fit_number(wanted, place)?;
            let kind = check(operand.get(), Wanted::AnInteger, known, scopes)?;
            Ok(unary_type::<INT, LONG, PTR>(*op, kind))
        }
        ExprKind::Cast { to, operand } => {
            fit_number(wanted, place)?;
            check(operand.get(), Wanted::AnInteger, known, scopes)?;
            Ok(Some(Widths::<INT, LONG, PTR>::type_of(*to)))
        }
        ExprKind::Binary { op, left, right } => {
            let operands = operand_wanted(*op, left.get(), right.get(), known, scopes);
            let first = check(left.get(), operands, known, scopes)?;
            fit_number(wanted, place)?;
            let second = check(right.get(), operands, known, scopes)?;
            Ok(binary_type::<INT, LONG, PTR>(*op, first, second))
        }
        ExprKind::Bracket(inner) => {
            fit(wanted, sort_of(inner.get(), known, scopes), place)?;
            check(inner.get(), Wanted::Anything, known, scopes)
        }
    }
}

/// The first fault of arguments, each of which is to be an integer.
#[cycle(expressions)]
#[tactic(auto, using(crate::proofs::Verdicts::verdict_laws))]
pub fn arguments<'a, const INT: u32, const LONG: u32, const PTR: u32>(
    args: &[Expr],
    known: &Known<'a, INT, LONG, PTR>,
    scopes: &Scopes<'a>,
) -> Result<(), CFault>
    requires { IsModel INT LONG PTR }
    ensures { Passes result (spec.all_arguments (setting_of known.now) args.now scopes.now) }
{
    for arg in args {
        check(arg, Wanted::AnInteger, known, scopes)?;
    }
    Ok(())
}
