//! The faults of items (ISO/IEC 9899:1999, the constraints of 6.7.2.1, 6.7.5.3 and 6.9).
ghost use Rattle.std.specs.Prelude.{◌≡◌, [], ◌∷◌, ◌++◌, OnOk, IfOk};
ghost use Rattle.c_tree.specs.declared.item.Item.TheVariants as spec_item;
ghost use Rattle.name_table.specs.Entries.{lent};
ghost use Rattle.c_widths.specs.DataModel.{IsModel};
ghost use Rattle.c_types.specs.ExpressionTypes.{tag_of};
ghost use Rattle.c_types.specs.Scope.{behind};
ghost use Rattle.c_types.specs.Setting.{declared_by};
ghost use Rattle.c_types.specs.UnitTypes as spec;
ghost use Rattle.c_types.specs.Behind.{behind_item};
ghost use Rattle.c_types.specs.Shown.{setting_of};
ghost use Rattle.c_types.specs.Verdict.{Passes};

use crate::agreeing::disagrees;
use crate::known::Known;
use crate::local::{Scopes, declare_in, is_reserved};
use crate::named_type::{NamedType, tag_of};
use crate::refusing::refuse_if;
use crate::statements::in_order;
use c_mean::{CFault, CKind, CType, Field, Function, Item, Stmt, Struct};
use cg_out::List;
use name_table::Table;
use std::alloc::Global;

/// Whether a type names a struct that is not declared before.
fn lacks_tag<'a, const INT: u32, const LONG: u32, const PTR: u32>(
    kind: &CType,
    known: &Known<'a, INT, LONG, PTR>,
) -> bool
    ensures { result ≡ spec.lacks_tag (setting_of known.now) (tag_of kind.now) }
{
    match tag_of(kind) {
        Some(tag) => known.fields(tag).is_none(),
        None => false,
    }
}

/// Declares a field or a parameter behind others.
#[tactic(auto, using(crate::proofs::Verdicts::verdict_laws))]
fn declare_field<'a, const INT: u32, const LONG: u32, const PTR: u32>(
    field: &'a Field,
    known: &Known<'a, INT, LONG, PTR>,
    table: &mut Table<'a, NamedType<'a>>,
) -> Result<(), CFault>
    ensures passes { Passes result (spec.field_faults (setting_of known.now) table.old field.now) }
    ensures declares { OnOk result (table.new ≡ table.old ++ declared_by (field.now ∷ [])) }
{
    refuse_if(
        lacks_tag(&field.kind, known),
        CKind::UnknownName,
        field.place,
    )?;
    declare_in(
        table,
        field.name.bytes(),
        NamedType::given(&field.kind),
        field.place,
    )
}

/// Declares fields or parameters.
#[tactic(auto, using(crate::proofs::Verdicts::verdict_laws))]
fn declare_fields<'a, const INT: u32, const LONG: u32, const PTR: u32>(
    fields: &'a [Field],
    alloc: Global,
    known: &Known<'a, INT, LONG, PTR>,
) -> Result<Table<'a, NamedType<'a>>, CFault>
    ensures passes { Passes result (spec.fields_in_order (setting_of known.now) [] fields.now) }
    ensures declares { IfOk result (λ table. table ≡ declared_by fields.now) }
{
    let mut table = Table::new(alloc);
    for field in fields {
        declare_field(field, known, &mut table)?;
    }
    Ok(table)
}

/// Declares a struct.
#[tactic(auto, using(crate::proofs::Verdicts::verdict_laws))]
fn declare_struct<'a, const INT: u32, const LONG: u32, const PTR: u32>(
    x: &'a Struct,
    alloc: Global,
    known: &mut Known<'a, INT, LONG, PTR>,
) -> Result<(), CFault>
    ensures passes { Passes result (spec.struct_faults (setting_of known.old) x.now) }
    ensures adds { OnOk result (setting_of known.new ≡ behind_item (spec_item.Struct x.now) (setting_of known.old)) }
{
    refuse_if(
        known.fields(x.tag.bytes()).is_some(),
        CKind::Redeclared,
        x.place,
    )?;
    refuse_if(is_reserved(x.tag.bytes()), CKind::ReservedName, x.place)?;
    let table = declare_fields(x.fields.items(), alloc, known)?;
    known.add_struct(x, table)?;
    Ok(())
}

/// The head of a function, whose parameters it gives.
#[tactic(auto, using(crate::proofs::Verdicts::verdict_laws))]
fn head<'a, const INT: u32, const LONG: u32, const PTR: u32>(
    f: &'a Function,
    alloc: Global,
    known: &Known<'a, INT, LONG, PTR>,
) -> Result<Table<'a, NamedType<'a>>, CFault>
    ensures passes { Passes result (spec.head_faults (setting_of known.now) f.now) }
    ensures declares { IfOk result (λ table. table ≡ declared_by f.now.params) }
{
    let name = f.name.bytes();
    refuse_if(
        disagrees(f, known.function(name), known.defined(name)),
        CKind::Redeclared,
        f.place,
    )?;
    refuse_if(is_reserved(name), CKind::ReservedName, f.place)?;
    declare_fields(f.params.items(), alloc, known)
}

/// The statements of a definition.
fn body<'a, const INT: u32, const LONG: u32, const PTR: u32>(
    list: &'a Option<List<Stmt>>,
    returns: &CType,
    params: Table<'a, NamedType<'a>>,
    alloc: Global,
    known: &Known<'a, INT, LONG, PTR>,
) -> Result<(), CFault>
    requires { IsModel INT LONG PTR }
    ensures { Passes result (spec.body_faults (setting_of known.now) list.now returns.now params.entry) }
{
    match list {
        Some(list) => {
            let mut scopes = Scopes::new(alloc, params);
            in_order(list.items(), returns, alloc, known, &mut scopes)
        }
        None => Ok(()),
    }
}

/// Declares a function, in its own body too.
#[tactic(auto, using(crate::proofs::Verdicts::verdict_laws))]
fn declare_function<'a, const INT: u32, const LONG: u32, const PTR: u32>(
    f: &'a Function,
    alloc: Global,
    known: &mut Known<'a, INT, LONG, PTR>,
) -> Result<(), CFault>
    requires { IsModel INT LONG PTR }
    ensures passes { let before = setting_of known.old in
        Passes result (spec.head_faults before f.now ++ spec.body_faults (behind_item (spec_item.Function f.now) before) f.now.body f.now.returns (declared_by f.now.params)) }
    ensures adds { OnOk result (setting_of known.new ≡ behind_item (spec_item.Function f.now) (setting_of known.old)) }
{
    let params = head(f, alloc, known)?;
    known.add_function(f)?;
    body(&f.body, &f.returns, params, alloc, known)
}

/// The first fault of an item, which is known from then on.
pub fn declare<'a, const INT: u32, const LONG: u32, const PTR: u32>(
    item: &'a Item,
    alloc: Global,
    known: &mut Known<'a, INT, LONG, PTR>,
) -> Result<(), CFault>
    requires { IsModel INT LONG PTR }
    ensures passes { let before = setting_of known.old in
        Passes result (spec.item_faults before (behind_item item.now before) item.now) }
    ensures adds { OnOk result (setting_of known.new ≡ behind_item item.now (setting_of known.old)) }
{
    match item {
        Item::Struct(x) => declare_struct(x, alloc, known),
        Item::Function(f) => declare_function(f, alloc, known),
    }
}
