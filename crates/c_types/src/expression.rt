//! The faults of an expression (ISO/IEC 9899:1999, the constraints of 6.5).
ghost use Rattle.std.specs.Prelude.{◌≡◌, ℕ, length};
ghost use Rattle.c_text.specs.declared.place.Place.{Place};
ghost use Rattle.name_table.specs.Entries.{lent};
ghost use Rattle.c_widths.specs.ConstantType.{constant_type};
ghost use Rattle.c_widths.specs.DataModel.{IsModel, model_of};
ghost use Rattle.c_types.specs.ExpressionTypes as spec;
ghost use Rattle.c_types.specs.Scope.{type_named};
ghost use Rattle.c_types.specs.Shown.{setting_of};
ghost use Rattle.c_types.specs.Verdict.{Passes, Sees, wanted_shown, sort_shown};

use crate::known::Known;
use crate::local::Scopes;
use crate::named_type::integer_type;
use crate::refusing::{
    Sort, Wanted, fit, fit_name, fit_number, is_null, is_pointer, mismatch, refuse_if,
};
use c_mean::{
    BinaryOp, CFault, CKind, CType, Callee, Constant, Expr, ExprKind, Field, Function, IntType,
    Place, UnaryOp,
};
use c_widths::Widths;

/// Of a name that is no local: a function's, or unknown.
pub fn not_local(function: Option<&Function>, place: Place) -> CFault
    ensures { result ≡ CFault.Fault (spec.no_local (lent function.entry)) place }
{
    let kind = match function {
        Some(_) => CKind::TypeMismatch,
        None => CKind::UnknownName,
    };
    CFault::Fault { kind, place }
}

fn is_pointer_type(kind: &CType) -> bool
    ensures { result ≡ spec.is_pointer_type kind.now }
{
    matches!(kind, CType::Pointer { .. })
}

fn takes_pointer(params: &[Field]) -> bool
    ensures { result ≡ spec.takes_pointer params.now }
{
    for param in params {
        if is_pointer_type(&param.kind) {
            return true;
        }
    }
    false
}

fn result_sort(returns: &CType) -> Sort
    ensures { sort_shown result ≡ spec.result_sort returns.now }
{
    match returns {
        CType::Void => Sort::Void,
        _ => Sort::Number,
    }
}

fn is_equality(op: BinaryOp) -> bool
    ensures { result ≡ spec.is_equality op }
{
    matches!(op, BinaryOp::Equal | BinaryOp::NotEqual)
}

/// What a declared function gives, and its faults at the name of a call.
fn declared_call<const INT: u32, const LONG: u32, const PTR: u32>(
    function: &Function,
    deep: bool,
    count: usize,
    wanted: Wanted,
    place: Place,
) -> Result<Option<IntType>, CFault>
    ensures { Sees result (spec.callee_found (spec.declared_call (model_of INT LONG PTR) (Some function.now) (Some deep) count place) (wanted_shown wanted) place) }
{
    refuse_if(
        count != function.params.items().len(),
        CKind::TypeMismatch,
        place,
    )?;
    fit(wanted, result_sort(&function.returns), place)?;
    refuse_if(
        takes_pointer(function.params.items()),
        CKind::ImpureCall,
        place,
    )?;
    refuse_if(deep, CKind::DeepCall, place)?;
    Ok(integer_type::<INT, LONG, PTR>(&function.returns))
}

#[tactic(auto, unfolding(crate::specs::Verdict::Refuses))]
fn named_call<'a, const INT: u32, const LONG: u32, const PTR: u32>(
    name: &[u8],
    count: usize,
    wanted: Wanted,
    place: Place,
    known: &Known<'a, INT, LONG, PTR>,
    scopes: &Scopes<'a>,
) -> Result<Option<IntType>, CFault>
    ensures { Sees result (spec.callee_found (spec.named_call (model_of INT LONG PTR) (type_named name.now scopes.now) ((setting_of known.now).function name.now) ((setting_of known.now).calls name.now) count place) (wanted_shown wanted) place) }
{
    match scopes.type_named(name) {
        Some(_) => Err(mismatch(place)),
        None => match known.function(name) {
            Some(function) => match known.calls(name) {
                Some(deep) => declared_call::<INT, LONG, PTR>(function, deep, count, wanted, place),
                None => Err(not_local(None, place)),
            },
            None => Err(not_local(None, place)),
        },
    }
}

/// What a call gives, and its faults but for those of its arguments.
pub fn call<'a, const INT: u32, const LONG: u32, const PTR: u32>(
    function: &Callee,
    count: usize,
    wanted: Wanted,
    place: Place,
    known: &Known<'a, INT, LONG, PTR>,
    scopes: &Scopes<'a>,
) -> Result<Option<IntType>, CFault>
    ensures { Sees result (spec.callee_found (spec.called (setting_of known.now) function.now count place scopes.now) (wanted_shown wanted) place) }
{
    match function {
        Callee::Name(name) => named_call(name.bytes(), count, wanted, place, known, scopes),
        Callee::Memset => {
            fit(wanted, Sort::Number, place)?;
            Err(CFault::Fault {
                kind: CKind::ImpureCall,
                place,
            })
        }
    }
}

fn call_sort<'a, const INT: u32, const LONG: u32, const PTR: u32>(
    function: &Callee,
    known: &Known<'a, INT, LONG, PTR>,
    scopes: &Scopes<'a>,
) -> Sort
    ensures { (count : ℕ) (place : Place) → sort_shown result ≡ (spec.called (setting_of known.now) function.now count place scopes.now).sort }
{
    match function {
        Callee::Memset => Sort::Number,
        Callee::Name(name) => {
            if scopes.type_named(name.bytes()).is_some() {
                return Sort::Number;
            }
            match (known.function(name.bytes()), known.calls(name.bytes())) {
                (Some(function), Some(_)) => result_sort(&function.returns),
                _ => Sort::Number,
            }
        }
    }
}

/// The type of a constant.
#[tactic(auto, unfolding(crate::specs::Verdict::Refuses))]
pub fn constant<const INT: u32, const LONG: u32, const PTR: u32>(
    constant: &Constant,
    wanted: Wanted,
    place: Place,
) -> Result<Option<IntType>, CFault>
    requires { IsModel INT LONG PTR }
    ensures { let type = constant_type (model_of INT LONG PTR) constant.now in
        Sees result (spec.number_found type (spec.constant_faults type (wanted_shown wanted) place)) }
{
    match Widths::<INT, LONG, PTR>::constant_type(constant) {
        Some(kind) => {
            fit_number(wanted, place)?;
            Ok(Some(kind))
        }
        None => Err(mismatch(place)),
    }
}

/// What a name stands for.
#[tactic(auto, unfolding(crate::specs::Verdict::Refuses))]
pub fn name<'a, const INT: u32, const LONG: u32, const PTR: u32>(
    name: &[u8],
    wanted: Wanted,
    place: Place,
    known: &Known<'a, INT, LONG, PTR>,
    scopes: &Scopes<'a>,
) -> Result<Option<IntType>, CFault>
    ensures { Sees result (spec.name_found (model_of INT LONG PTR) (type_named name.now scopes.now) ((setting_of known.now).function name.now) (wanted_shown wanted) place) }
{
    match scopes.type_named(name) {
        Some(kind) => {
            fit_name(wanted, kind.sort(), place)?;
            Ok(kind.integer_type::<INT, LONG, PTR>())
        }
        None => match known.function(name) {
            Some(_) => {
                fit_name(wanted, Sort::Function, place)?;
                Ok(None)
            }
            None => Err(not_local(None, place)),
        },
    }
}

fn name_sort<'a, const INT: u32, const LONG: u32, const PTR: u32>(
    name: &[u8],
    known: &Known<'a, INT, LONG, PTR>,
    scopes: &Scopes<'a>,
) -> Sort
    ensures { (wanted : spec.Wanted) (place : Place) → sort_shown result ≡ (spec.name_found (model_of INT LONG PTR) (type_named name.now scopes.now) ((setting_of known.now).function name.now) wanted place).sort }
{
    match scopes.type_named(name) {
        Some(kind) => kind.sort(),
        None => {
            if known.function(name).is_some() {
                Sort::Function
            } else {
                Sort::Number
            }
        }
    }
}

/// The base of an element.
#[tactic(auto, unfolding(crate::specs::Verdict::Refuses))]
pub fn element<'a, const INT: u32, const LONG: u32, const PTR: u32>(
    base: &[u8],
    place: Place,
    known: &Known<'a, INT, LONG, PTR>,
    scopes: &Scopes<'a>,
) -> Result<(), CFault>
    ensures { Passes result (spec.element_faults (type_named base.now scopes.now) ((setting_of known.now).function base.now) place) }
{
    match scopes.type_named(base) {
        Some(kind) => kind.check_bytes(place),
        None => Err(not_local(known.function(base), place)),
    }
}

/// A field of the struct with a tag.
#[tactic(auto, unfolding(crate::specs::Verdict::Refuses))]
fn tagged_field<'a, const INT: u32, const LONG: u32, const PTR: u32>(
    tag: &[u8],
    field: &[u8],
    place: Place,
    known: &Known<'a, INT, LONG, PTR>,
) -> Result<Option<IntType>, CFault>
    ensures { Sees result (spec.number_found (spec.type_among (model_of INT LONG PTR) field.now ((setting_of known.now).fields tag.now)) (spec.faults_among field.now ((setting_of known.now).fields tag.now) place)) }
{
    match known.fields(tag) {
        Some(fields) => match fields.get(field) {
            Some(kind) => Ok(kind.integer_type::<INT, LONG, PTR>()),
            None => Err(not_local(None, place)),
        },
        None => Ok(None),
    }
}

#[tactic(auto, unfolding(crate::specs::Verdict::Refuses))]
pub fn member<'a, const INT: u32, const LONG: u32, const PTR: u32>(
    base: &[u8],
    field: &[u8],
    place: Place,
    known: &Known<'a, INT, LONG, PTR>,
    scopes: &Scopes<'a>,
) -> Result<Option<IntType>, CFault>
    ensures { let local = type_named base.now scopes.now in
        Sees result (spec.number_found (spec.member_type (setting_of known.now) local field.now) (spec.member_faults (setting_of known.now) local ((setting_of known.now).function base.now) field.now place)) }
{
    match scopes.type_named(base) {
        Some(kind) => match kind.tag() {
            Some(tag) => tagged_field(tag, field, place, known),
            None => Err(mismatch(place)),
        },
        None => Err(not_local(known.function(base), place)),
    }
}

pub fn promoted<const INT: u32, const LONG: u32, const PTR: u32>(
    kind: Option<IntType>,
) -> Option<IntType>
    requires { IsModel INT LONG PTR }
    ensures { result ≡ spec.promoted (model_of INT LONG PTR) kind }
{
    match kind {
        Some(kind) => Some(Widths::<INT, LONG, PTR>::promote(kind)),
        None => None,
    }
}

pub fn unary_type<const INT: u32, const LONG: u32, const PTR: u32>(
    op: UnaryOp,
    kind: Option<IntType>,
) -> Option<IntType>
    requires { IsModel INT LONG PTR }
    ensures { result ≡ spec.unary_type (model_of INT LONG PTR) op kind }
{
    match op {
        UnaryOp::Not => Some(IntType::Int),
        _ => promoted::<INT, LONG, PTR>(kind),
    }
}

fn common_type<const INT: u32, const LONG: u32, const PTR: u32>(
    left: Option<IntType>,
    right: Option<IntType>,
) -> Option<IntType>
    requires { IsModel INT LONG PTR }
    ensures { result ≡ spec.common_type (model_of INT LONG PTR) left right }
{
    match (left, right) {
        (Some(left), Some(right)) => Some(Widths::<INT, LONG, PTR>::common(
            Widths::<INT, LONG, PTR>::promote(left),
            Widths::<INT, LONG, PTR>::promote(right),
        )),
        _ => None,
    }
}

pub fn binary_type<const INT: u32, const LONG: u32, const PTR: u32>(
    op: BinaryOp,
    left: Option<IntType>,
    right: Option<IntType>,
) -> Option<IntType>
    requires { IsModel INT LONG PTR }
    ensures { result ≡ spec.binary_type (model_of INT LONG PTR) op left right }
{
    match op {
        BinaryOp::BitOr
        | BinaryOp::BitXor
        | BinaryOp::BitAnd
        | BinaryOp::Add
        | BinaryOp::Subtract => { common_type::<INT, LONG, PTR>(left, right) }
        BinaryOp::ShiftLeft | BinaryOp::ShiftRight => promoted::<INT, LONG, PTR>(left),
        _ => Some(IntType::Int),
    }
}

/// What sort of operand an expression is, whatever its faults.
pub fn sort_of<'a, const INT: u32, const LONG: u32, const PTR: u32>(
    e: &Expr,
    known: &Known<'a, INT, LONG, PTR>,
    scopes: &Scopes<'a>,
) -> Sort
    ensures { sort_shown result ≡ (spec.typing (setting_of known.now) e.now spec.anything scopes.now).sort }
{
    match &e.kind {
        ExprKind::Name(name) => name_sort(name.bytes(), known, scopes),
        ExprKind::Null => Sort::Null,
        ExprKind::Call { function, args: _ } => call_sort(function, known, scopes),
        ExprKind::Bracket(inner) => sort_of(inner.get(), known, scopes),
        ExprKind::Constant(_) => Sort::Number,
        ExprKind::Member { base: _, field: _ } => Sort::Number,
        ExprKind::Element { base: _, index: _ } => Sort::Number,
        ExprKind::Unary { op: _, operand: _ } => Sort::Number,
        ExprKind::Cast { to: _, operand: _ } => Sort::Number,
        ExprKind::Binary {
            op: _,
            left: _,
            right: _,
        } => Sort::Number,
    }
}

/// What is wanted of two operands.
pub fn operand_wanted<'a, const INT: u32, const LONG: u32, const PTR: u32>(
    op: BinaryOp,
    left: &Expr,
    right: &Expr,
    known: &Known<'a, INT, LONG, PTR>,
    scopes: &Scopes<'a>,
) -> Wanted
    ensures { let a = (spec.typing (setting_of known.now) left.now spec.anything scopes.now).sort in
        let b = (spec.typing (setting_of known.now) right.now spec.anything scopes.now).sort in
        wanted_shown result ≡ spec.operand_wanted (spec.compares_pointer op a b) }
{
    if !is_equality(op) {
        return Wanted::AnInteger;
    }
    let left = sort_of(left, known, scopes);
    let right = sort_of(right, known, scopes);
    if is_pointer(left) && is_pointer(right) && (is_null(left) || is_null(right)) {
        Wanted::Anything
    } else {
        Wanted::AnInteger
    }
}
