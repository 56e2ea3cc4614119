//! The faults of a statement but for those of statements in it (ISO/IEC 9899:1999, the constraints
//! of 6.5.16, 6.7 and 6.8, and 7.21.6.1).
ghost use Rattle.std.specs.Prelude.{◌≡◌, ◌∷◌, [], Some, false, OnOk};
ghost use Rattle.c_tree.specs.declared.expression.ExprKind.{out-ExprKind};
ghost use Rattle.c_tree.specs.declared.item.CType.TheVariants.{Integer};
ghost use Rattle.c_widths.specs.DataModel.{IsModel};
ghost use Rattle.c_types.specs.ExpressionTypes.{integer_value};
ghost use Rattle.c_types.specs.Scope as scope;
ghost use Rattle.c_types.specs.StatementTypes as spec;
ghost use Rattle.c_types.specs.Shown.{setting_of};
ghost use Rattle.c_types.specs.Verdict.{Passes};

use crate::checking::{arguments, check};
use crate::expression::{call, not_local};
use crate::known::Known;
use crate::local::Scopes;
use crate::refusing::{Wanted, mismatch, refuse_if};
use c_mean::{CFault, CKind, CType, Callee, Expr, ExprKind, Place, Spelled};
use cg_out::Text;

/// Of what is to be an integer.
pub fn integer<'a, const INT: u32, const LONG: u32, const PTR: u32>(
    e: &Expr,
    known: &Known<'a, INT, LONG, PTR>,
    scopes: &Scopes<'a>,
) -> Result<(), CFault>
    requires { IsModel INT LONG PTR }
    ensures { Passes result (integer_value (setting_of known.now) e.now scopes.now) }
{
    check(e, Wanted::AnInteger, known, scopes)?;
    Ok(())
}

pub fn optional_integer<'a, const INT: u32, const LONG: u32, const PTR: u32>(
    value: &Option<Expr>,
    known: &Known<'a, INT, LONG, PTR>,
    scopes: &Scopes<'a>,
) -> Result<(), CFault>
    requires { IsModel INT LONG PTR }
    ensures { Passes result (spec.optional_value (setting_of known.now) value.now scopes.now) }
{
    match value {
        Some(e) => integer(e, known, scopes),
        None => Ok(()),
    }
}

/// Declares a local, in its own value too.
#[tactic(auto, using(crate::proofs::Verdicts::verdict_laws))]
pub fn declare<'a, const INT: u32, const LONG: u32, const PTR: u32>(
    kind: Spelled,
    name: &'a Text,
    value: &Option<Expr>,
    place: Place,
    known: &Known<'a, INT, LONG, PTR>,
    scopes: &mut Scopes<'a>,
) -> Result<(), CFault>
    requires { IsModel INT LONG PTR }
    ensures passes { Passes result (spec.declaration_faults (setting_of known.now) kind name.now value.now place scopes.old) }
    ensures declares { OnOk result (scopes.new ≡ scope.behind ((name.now, Integer kind) ∷ []) scopes.old) }
{
    scopes.declare(name.bytes(), kind, place)?;
    optional_integer(value, known, scopes)
}

fn is_const<'a>(name: &[u8], scopes: &Scopes<'a>) -> bool
    ensures { result ≡ spec.is_const (scope.type_named name.now scopes.now) }
{
    match scopes.type_named(name) {
        Some(kind) => kind.points_to_const(),
        None => false,
    }
}

fn writes_const<'a>(target: &ExprKind, scopes: &Scopes<'a>) -> bool
    ensures { result ≡ spec.writes_const (out-ExprKind target.now) scopes.now }
{
    match target {
        ExprKind::Member { base, field: _ } => is_const(base.bytes(), scopes),
        ExprKind::Element { base, index: _ } => is_const(base.bytes(), scopes),
        _ => false,
    }
}

#[tactic(auto, using(crate::proofs::Verdicts::verdict_laws))]
pub fn store<'a, const INT: u32, const LONG: u32, const PTR: u32>(
    target: &Expr,
    value: &Expr,
    place: Place,
    known: &Known<'a, INT, LONG, PTR>,
    scopes: &Scopes<'a>,
) -> Result<(), CFault>
    requires { IsModel INT LONG PTR }
    ensures { Passes result (spec.store_faults (setting_of known.now) target.now value.now place scopes.now) }
{
    integer(target, known, scopes)?;
    refuse_if(writes_const(&target.kind, scopes), CKind::ConstWrite, place)?;
    integer(value, known, scopes)
}

fn names_const<'a>(argument: &ExprKind, scopes: &Scopes<'a>) -> bool
    ensures { result ≡ spec.names_const (out-ExprKind argument.now) scopes.now }
{
    match argument {
        ExprKind::Name(name) => is_const(name.bytes(), scopes),
        _ => false,
    }
}

fn sets_const<'a>(args: &[Expr], scopes: &Scopes<'a>) -> bool
    ensures { result ≡ spec.sets_const args.now scopes.now }
{
    match args {
        [] => false,
        [first, ..] => names_const(&first.kind, scopes),
    }
}

#[tactic(auto, using(crate::proofs::Verdicts::verdict_laws))]
fn memset_arguments<'a, const INT: u32, const LONG: u32, const PTR: u32>(
    args: &[Expr],
    known: &Known<'a, INT, LONG, PTR>,
    scopes: &Scopes<'a>,
) -> Result<(), CFault>
    requires { IsModel INT LONG PTR }
    ensures { Passes result (spec.memset_arguments (setting_of known.now) args.now scopes.now) }
{
    match args {
        [] => Ok(()),
        [first, ..] => {
            check(first, Wanted::ABytePointer, known, scopes)?;
            arguments(&args[1..], known, scopes)
        }
    }
}

#[tactic(auto, using(crate::proofs::Verdicts::verdict_laws))]
fn memset<'a, const INT: u32, const LONG: u32, const PTR: u32>(
    args: &[Expr],
    place: Place,
    known: &Known<'a, INT, LONG, PTR>,
    scopes: &Scopes<'a>,
) -> Result<(), CFault>
    requires { IsModel INT LONG PTR }
    ensures { Passes result (spec.memset_faults (setting_of known.now) args.now place scopes.now) }
{
    refuse_if(args.len() != 3, CKind::TypeMismatch, place)?;
    refuse_if(sets_const(args, scopes), CKind::ConstWrite, place)?;
    memset_arguments(args, known, scopes)
}

/// A call that is a statement.
#[tactic(auto, using(crate::proofs::Verdicts::verdict_laws))]
pub fn call_statement<'a, const INT: u32, const LONG: u32, const PTR: u32>(
    function: &Callee,
    args: &[Expr],
    place: Place,
    known: &Known<'a, INT, LONG, PTR>,
    scopes: &Scopes<'a>,
) -> Result<(), CFault>
    requires { IsModel INT LONG PTR }
    ensures { Passes result (spec.call_faults (setting_of known.now) function.now args.now place scopes.now) }
{
    match function {
        Callee::Memset => memset(args, place, known, scopes),
        Callee::Name(_) => {
            call(function, args.len(), Wanted::Anything, place, known, scopes)?;
            arguments(args, known, scopes)
        }
    }
}

/// `(void)name;`.
#[tactic(auto, unfolding(crate::specs::Verdict::Refuses))]
pub fn discard<'a, const INT: u32, const LONG: u32, const PTR: u32>(
    name: &[u8],
    place: Place,
    known: &Known<'a, INT, LONG, PTR>,
    scopes: &Scopes<'a>,
) -> Result<(), CFault>
    ensures { Passes result (spec.discard_faults (scope.type_named name.now scopes.now) ((setting_of known.now).function name.now) place) }
{
    match scopes.type_named(name) {
        Some(_) => Ok(()),
        None => Err(not_local(known.function(name), place)),
    }
}

fn gives_value(returns: &CType) -> bool
    ensures { result ≡ spec.gives_value returns.now }
{
    matches!(returns, CType::Integer(_))
}

#[tactic(auto, unfolding(crate::specs::Verdict::Refuses))]
pub fn return_statement<'a, const INT: u32, const LONG: u32, const PTR: u32>(
    value: &Option<Expr>,
    returns: &CType,
    place: Place,
    known: &Known<'a, INT, LONG, PTR>,
    scopes: &Scopes<'a>,
) -> Result<(), CFault>
    requires { IsModel INT LONG PTR }
    ensures { Passes result (spec.return_faults (setting_of known.now) value.now (spec.gives_value returns.now) place scopes.now) }
{
    match value {
        None => refuse_if(gives_value(returns), CKind::TypeMismatch, place),
        Some(e) => {
            if gives_value(returns) {
                integer(e, known, scopes)
            } else {
                Err(mismatch(place))
            }
        }
    }
}
