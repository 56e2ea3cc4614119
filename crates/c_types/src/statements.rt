//! The faults of whole statements, from the left (ISO/IEC 9899:1999, the constraints of 6.8).
ghost use Rattle.std.specs.Prelude.{◌≡◌, OnOk};
ghost use Rattle.c_widths.specs.DataModel.{IsModel};
ghost use Rattle.c_types.specs.Scope.{behind};
ghost use Rattle.c_types.specs.SwitchLabels.{no_labels};
ghost use Rattle.c_types.specs.StatementTypes as spec;
ghost use Rattle.c_types.specs.Shown.{setting_of};
ghost use Rattle.c_types.specs.Verdict.{Passes};

use crate::checking::check;
use crate::expression::promoted;
use crate::known::Known;
use crate::labels::{Labels, label};
use crate::local::Scopes;
use crate::refusing::Wanted;
use crate::statement::{
    call_statement, declare, discard, integer, optional_integer, return_statement, store,
};
use c_mean::{CFault, CType, IntType, Place, Stmt, StmtKind, SwitchPart};
use std::alloc::Global;

/// The first fault of a statement, with what it declares in the innermost block.
#[cycle(statements)]
pub fn statement<'a, const INT: u32, const LONG: u32, const PTR: u32>(
    stmt: &'a Stmt,
    returns: &CType,
    alloc: Global,
    known: &Known<'a, INT, LONG, PTR>,
    scopes: &mut Scopes<'a>,
) -> Result<(), CFault>
    requires { IsModel INT LONG PTR }
    ensures passes { Passes result ((spec.statement (setting_of known.now) stmt.now).faults returns.now scopes.old) }
    ensures declares { OnOk result (scopes.new ≡ behind (spec.statement (setting_of known.now) stmt.now).declares scopes.old) }
{
    kind_statement(&stmt.kind, stmt.place, returns, alloc, known, scopes)
}

#[cycle(statements)]
#[tactic(auto, using(crate::proofs::Verdicts::verdict_laws))]
fn kind_statement<'a, const INT: u32, const LONG: u32, const PTR: u32>(
    kind: &'a StmtKind,
    place: Place,
    returns: &CType,
    alloc: Global,
    known: &Known<'a, INT, LONG, PTR>,
    scopes: &mut Scopes<'a>,
) -> Result<(), CFault>
    requires { IsModel INT LONG PTR }
    ensures passes { Passes result ((spec.kind_statement (setting_of known.now) kind.now place).faults returns.now scopes.old) }
    ensures declares { OnOk result (scopes.new ≡ behind (spec.kind_statement (setting_of known.now) kind.now place).declares scopes.old) }
{
    match kind {
        StmtKind::Declare { kind, name, value } => declare(
            *kind, name, value, place, known, scopes,
        ),
        StmtKind::Assign {
            target,
            op: _,
            value,
        } => store(target, value, place, known, scopes),
        StmtKind::Call { function, args } => call_statement(
            function,
            args.items(),
            place,
            known,
            scopes,
        ),
        StmtKind::Discard(name) => discard(name.bytes(), place, known, scopes),
        StmtKind::Empty => Ok(()),
        StmtKind::Block(list) => {
            scopes.open(alloc)?;
            in_order(list.items(), returns, alloc, known, scopes)?;
            scopes.close();
            Ok(())
        }
        StmtKind::If { condition, yes, no } => {
            integer(condition, known, scopes)?;
            statement(yes.get(), returns, alloc, known, scopes)?;
            match no {
                Some(other) => statement(other.get(), returns, alloc, known, scopes),
                None => Ok(()),
            }
        }
        StmtKind::Return(value) => return_statement(value, returns, place, known, scopes),
        StmtKind::Break => Ok(()),
        StmtKind::Switch { value, parts } => {
            let kind = check(value, Wanted::AnInteger, known, scopes)?;
            scopes.open(alloc)?;
            parts_in_order(
                parts.items(),
                promoted::<INT, LONG, PTR>(kind),
                returns,
                alloc,
                known,
                scopes,
            )?;
            scopes.close();
            Ok(())
        }
    }
}

/// Statements in a row.
#[cycle(statements)]
pub fn in_order<'a, const INT: u32, const LONG: u32, const PTR: u32>(
    list: &'a [Stmt],
    returns: &CType,
    alloc: Global,
    known: &Known<'a, INT, LONG, PTR>,
    scopes: &mut Scopes<'a>,
) -> Result<(), CFault>
    requires { IsModel INT LONG PTR }
    ensures passes { Passes result (spec.statements (setting_of known.now) list.now returns.now scopes.old) }
    ensures keeps { OnOk result (scopes.new.outer ≡ scopes.old.outer) }
{
    for stmt in list {
        statement(stmt, returns, alloc, known, scopes)?;
    }
    Ok(())
}

/// What stands at the level of a switch, in a row.
#[cycle(statements)]
fn parts_in_order<'a, const INT: u32, const LONG: u32, const PTR: u32>(
    parts: &'a [SwitchPart],
    kind: Option<IntType>,
    returns: &CType,
    alloc: Global,
    known: &Known<'a, INT, LONG, PTR>,
    scopes: &mut Scopes<'a>,
) -> Result<(), CFault>
    requires { IsModel INT LONG PTR }
    ensures passes { Passes result (spec.parts (setting_of known.now) parts.now kind no_labels returns.now scopes.old) }
    ensures keeps { OnOk result (scopes.new.outer ≡ scopes.old.outer) }
{
    let mut labels = Labels::new(alloc);
    for part in parts {
        switch_part(part, kind, &mut labels, returns, alloc, known, scopes)?;
    }
    Ok(())
}

#[cycle(statements)]
#[tactic(auto, using(crate::proofs::Verdicts::verdict_laws))]
fn switch_part<'a, const INT: u32, const LONG: u32, const PTR: u32>(
    part: &'a SwitchPart,
    kind: Option<IntType>,
    labels: &mut Labels,
    returns: &CType,
    alloc: Global,
    known: &Known<'a, INT, LONG, PTR>,
    scopes: &mut Scopes<'a>,
) -> Result<(), CFault>
    requires { IsModel INT LONG PTR }
    ensures passes { Passes result ((spec.part (setting_of known.now) part.now).faults kind labels.old returns.now scopes.old) }
    ensures labels { OnOk result (labels.new ≡ (spec.part (setting_of known.now) part.now).labels kind labels.old) }
    ensures declares { OnOk result (scopes.new ≡ behind (spec.part (setting_of known.now) part.now).declares scopes.old) }
{
    match part {
        SwitchPart::Label { value, place } => {
            label::<INT, LONG, PTR>(kind, value, *place, labels)?;
            optional_integer(value, known, scopes)
        }
        SwitchPart::Statement(stmt) => statement(stmt, returns, alloc, known, scopes),
    }
}
