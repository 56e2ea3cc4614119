//! The labels of a switch (ISO/IEC 9899:1999, 6.8.4.2).
ghost use Rattle.std.specs.Prelude.{◌≡◌, pos, neg_ℤ, ◌^◌, ◌≤ℤ◌, ◌<ℤ◌, Some, IfSome, OnOk};
ghost use Rattle.std.specs.Option.{option_map};
ghost use Rattle.c_widths.specs.DataModel.{IsModel, model_of};
ghost use Rattle.c_types.specs.SwitchLabels as spec;
ghost use Rattle.c_types.specs.TypeFault.{when};
ghost use Rattle.c_widths.specs.ConstantType.{constant_type};
ghost use Rattle.c_text.specs.declared.refusal.CKind.TheVariants.{DuplicateCase};
ghost use Rattle.c_types.specs.Verdict.{Passes};
ghost use Rattle.c_types.specs.CaseNumbers.{typed, IsSmall};

use crate::refusing::refuse_if;
use c_mean::{CFault, CKind, Constant, Expr, ExprKind, IntType, Place, UnaryOp};
use c_widths::Widths;
use indexmap::IndexSet;
use std::alloc::Global;
use std::marker::Model;

/// A number of a type.
#[derive(Clone, Copy)]
pub struct CaseNumber {
    kind: IntType,
    value: i128,
}

/// The labels of a switch so far.
#[derive(Drop)]
pub struct Labels {
    values: IndexSet<i128>,
    has_default: bool,
}

impl Model for Labels {
    ghost use Rattle.c_types.specs.SwitchLabels.{Labels};

    ghost Value = { Labels };

    ghost view = { λ l. record { values = l.values.keys; has_default = l.has_default } };
}

impl Labels {
    pub fn new(alloc: Global) -> Labels
        ensures { result ≡ spec.no_labels }
    {
        Labels {
            values: IndexSet::new(alloc),
            has_default: false,
        }
    }

    /// Adds the number of a case.
    #[tactic(auto, using(crate::proofs::Verdicts::verdict_laws))]
    pub fn add_number(&mut self, number: i128, place: Place) -> Result<(), CFault>
        ensures passes { Passes result (spec.repeated_number (Some number) place self.old) }
        ensures adds { OnOk result (self.new ≡ spec.with_number (Some number) self.old) }
    {
        refuse_if(self.values.contains(&number), CKind::DuplicateCase, place)?;
        self.values.insert(number)?;
        Ok(())
    }

    /// Adds a default.
    #[tactic(auto, using(crate::proofs::Verdicts::verdict_laws))]
    pub fn add_default(&mut self, place: Place) -> Result<(), CFault>
        ensures passes { Passes result (when self.old.has_default DuplicateCase place) }
        ensures adds { OnOk result (self.new ≡ spec.with_default self.old) }
    {
        refuse_if(self.has_default, CKind::DuplicateCase, place)?;
        self.has_default = true;
        Ok(())
    }
}

fn constant_number<const INT: u32, const LONG: u32, const PTR: u32>(
    constant: &Constant,
) -> Option<CaseNumber>
    requires { IsModel INT LONG PTR }
    ensures value { option_map typed result ≡ spec.constant_value (constant_type (model_of INT LONG PTR) constant.now) constant.now }
    ensures small { IfSome result IsSmall }
{
    match Widths::<INT, LONG, PTR>::constant_type(constant) {
        Some(kind) => Some(CaseNumber {
            kind,
            value: i128::from(constant.value),
        }),
        None => None,
    }
}

fn signed_number<const INT: u32, const LONG: u32, const PTR: u32>(
    op: UnaryOp,
    number: Option<CaseNumber>,
) -> Option<CaseNumber>
    requires model { IsModel INT LONG PTR }
    requires small { IfSome number IsSmall }
    ensures value { option_map typed result ≡ spec.signed_value (model_of INT LONG PTR) op (option_map typed number) }
    ensures small { IfSome result IsSmall }
{
    match op {
        UnaryOp::Plus => number,
        UnaryOp::Minus => match number {
            Some(number) => Some(CaseNumber {
                kind: number.kind,
                value: Widths::<INT, LONG, PTR>::convert(-number.value, number.kind),
            }),
            None => None,
        },
        UnaryOp::Complement | UnaryOp::Not => None,
    }
}

/// The number that a constant with signs and brackets is.
fn case_number<const INT: u32, const LONG: u32, const PTR: u32>(e: &Expr) -> Option<CaseNumber>
    requires { IsModel INT LONG PTR }
    ensures value { option_map typed result ≡ spec.case_value (model_of INT LONG PTR) e.now }
    ensures small { IfSome result IsSmall }
{
    match &e.kind {
        ExprKind::Constant(constant) => constant_number::<INT, LONG, PTR>(constant),
        ExprKind::Unary { op, operand } => signed_number::<INT, LONG, PTR>(
            *op,
            case_number::<INT, LONG, PTR>(operand.get()),
        ),
        ExprKind::Bracket(inner) => case_number::<INT, LONG, PTR>(inner.get()),
        ExprKind::Name(_) => None,
        ExprKind::Null => None,
        ExprKind::Member { base: _, field: _ } => None,
        ExprKind::Element { base: _, index: _ } => None,
        ExprKind::Call {
            function: _,
            args: _,
        } => None,
        ExprKind::Cast { to: _, operand: _ } => None,
        ExprKind::Binary {
            op: _,
            left: _,
            right: _,
        } => None,
    }
}

/// The number of a case in the type of its switch, where both are known.
fn number_in<const INT: u32, const LONG: u32, const PTR: u32>(
    kind: Option<IntType>,
    e: &Expr,
) -> Option<i128>
    requires { IsModel INT LONG PTR }
    ensures { result ≡ spec.value_in (model_of INT LONG PTR) kind (spec.case_value (model_of INT LONG PTR) e.now) }
{
    match (kind, case_number::<INT, LONG, PTR>(e)) {
        (Some(kind), Some(number)) => Some(Widths::<INT, LONG, PTR>::convert(number.value, kind)),
        _ => None,
    }
}

/// Adds a label to those before it.
pub fn label<const INT: u32, const LONG: u32, const PTR: u32>(
    kind: Option<IntType>,
    value: &Option<Expr>,
    place: Place,
    labels: &mut Labels,
) -> Result<(), CFault>
    requires { IsModel INT LONG PTR }
    ensures passes { Passes result (spec.label_faults (model_of INT LONG PTR) kind value.now place labels.old) }
    ensures adds { OnOk result (labels.new ≡ spec.with_label (model_of INT LONG PTR) kind value.now labels.old) }
{
    match value {
        None => labels.add_default(place),
        Some(e) => match number_in::<INT, LONG, PTR>(kind, e) {
            Some(number) => labels.add_number(number, place),
            None => Ok(()),
        },
    }
}
