//! Units without a fault of names and types.
ghost use Rattle.std.specs.Prelude.{◌≡◌, ℕ, List, [], OnOk};
ghost use Rattle.std.specs.Coded.{codes};
ghost use Rattle.std.specs.Option.{option_map};
ghost use Rattle.c_text.specs.Refusal.{Gives};
ghost use Rattle.c_tree.specs.contracts.statement.StmtKind as kind;
ghost use Rattle.cg_out.specs.Words.{look_up};
ghost use Rattle.name_table.specs.Entries.{lent};
ghost use Rattle.c_widths.specs.DataModel.{IsModel, model_of, models};
ghost use Rattle.c_types.specs.Setting.{setting, structs, definitions};
ghost use Rattle.c_types.specs.TypeFault.{unless_refused};
ghost use Rattle.c_types.specs.UnitTypes.{unit_faults, items_in_order, faults_under};
ghost use Rattle.c_types.specs.FieldNamed.{field_in};
ghost use Rattle.c_types.specs.FirstFault.{unit_without_fault};
ghost use Rattle.c_types.specs.Shown.{setting_of};
ghost use Rattle.c_types.specs.Verdict.{Passes};

use crate::declaring::declare;
use crate::known::Known;
use c_mean::{CFault, Field, Function, Item, Unit};
use std::alloc::Global;
use std::marker::Model;

/// A unit that has no fault of names and types under a data model.
#[derive(Drop)]
pub struct TypedUnit<'a, const INT: u32, const LONG: u32, const PTR: u32> {
    unit: &'a Unit,
    known: Known<'a, INT, LONG, PTR>,
    ghost typed: { unit_faults (model_of INT LONG PTR) unit.now ≡ [] },
    ghost defined: { (name : List ℕ) → (setting_of known).defined name ≡ look_up name (definitions unit.now.items) } by { Prim.hlevel (codes, kind.the_row.coded) },
    ghost structs: { (tag : List ℕ) → (setting_of known).fields tag ≡ look_up tag (structs unit.now.items) },
}

impl<'a, const INT: u32, const LONG: u32, const PTR: u32> Model for TypedUnit<'a, INT, LONG, PTR> {
    ghost use Rattle.c_tree.specs.declared.item.Unit.{Unit as Whole};
    ghost use Rattle.c_tree.specs.contracts.statement.StmtKind as kind;
    ghost use Rattle.std.specs.Coded.{codes};

    ghost Value = { Whole };

    ghost coded = { Prim.hlevel (codes, kind.the_row.coded) };

    ghost view = { λ t. t.unit.now };
}

impl<'a, const INT: u32, const LONG: u32, const PTR: u32> TypedUnit<'a, INT, LONG, PTR> {
    /// The whole unit.
    pub fn tree(&self) -> &Unit
        ensures lends { result.now ≡ self.now }
        ensures typed { unit_faults (model_of INT LONG PTR) self.now ≡ [] }
    {
        self.unit
    }

    /// The definition of a function, or none where the unit has none of that name.
    pub fn prototype(&self, function: &[u8]) -> Option<&Function>
        ensures found { lent result ≡ look_up function.now (definitions self.now.items) }
    {
        self.known.defined(function)
    }

    /// The fields of a struct, or none where the unit has none of that tag.
    pub fn fields(&self, tag: &[u8]) -> Option<&[Field]>
        ensures found { lent result ≡ look_up tag.now (structs self.now.items) }
    {
        match self.known.fields(tag) {
            Some(fields) => Some(fields.list),
            None => None,
        }
    }

    /// The field of a name in the struct of a tag, with its number in the struct, counted from 0
    /// (6.5.2.3).
    pub fn field(&self, tag: &[u8], name: &[u8]) -> Option<(usize, &Field)>
        ensures found { option_map (λ f. (f.0, f.1.now)) result ≡ field_in tag.now name.now (structs self.now.items) }
    {
        self.known.fields(tag)?.numbered(name)
    }
}

/// A unit as one without a fault, or its first fault (ISO/IEC 9899:1999, the constraints of 6.5 to
/// 6.9).
#[tactic(auto, using(crate::proofs::Verdicts::refuses_gives), unfolding(crate::specs::UnitTypes::unit_faults))]
pub fn typed<'a, const INT: u32, const LONG: u32, const PTR: u32>(
    alloc: Global,
    unit: &'a Unit,
) -> Result<TypedUnit<'a, INT, LONG, PTR>, CFault>
    requires { IsModel INT LONG PTR }
    ensures exact { Gives (λ t. t) result (unless_refused (unit_faults (model_of INT LONG PTR) unit.now) unit.now) }
{
    let items = unit.items.items();
    let mut known = Known::new(alloc, items)?;
    match declare_all(items, alloc, &mut known) {
        Ok(()) => Ok(TypedUnit { unit, known }),
        Err(fault) => Err(fault),
    }
}

/// The first fault of a unit under each model of the list in turn, if there is one.
#[tactic(auto, using(crate::proofs::Verdicts::passes_gives))]
pub fn check(alloc: Global, unit: &Unit) -> Result<(), CFault>
    ensures exact { Gives (λ _. unit.now) result (unit_without_fault unit.now) }
{
    check_models(alloc, unit)
}

/// The same, by the faults of all models.
#[tactic(auto, using(crate::proofs::Verdicts::verdict_laws), unfolding(c_widths::specs::DataModel::is_listed))]
fn check_models(alloc: Global, unit: &Unit) -> Result<(), CFault>
    ensures { Passes result (faults_under models unit.now) }
{
    check_under::<32, 32, 32>(alloc, unit)?;
    check_under::<32, 64, 64>(alloc, unit)
}

/// The first fault of a unit under a model.
#[tactic(auto, using(crate::proofs::Verdicts::gives_none, crate::proofs::Verdicts::gives_refuses))]
fn check_under<const INT: u32, const LONG: u32, const PTR: u32>(
    alloc: Global,
    unit: &Unit,
) -> Result<(), CFault>
    requires { IsModel INT LONG PTR }
    ensures { Passes result (unit_faults (model_of INT LONG PTR) unit.now) }
{
    match typed::<INT, LONG, PTR>(alloc, unit) {
        Ok(_) => Ok(()),
        Err(fault) => Err(fault),
    }
}

/// The first fault of these items, all of which are known from then on.
#[tactic(auto, using(crate::proofs::Verdicts::verdict_laws))]
fn declare_all<'a, const INT: u32, const LONG: u32, const PTR: u32>(
    items: &'a [Item],
    alloc: Global,
    known: &mut Known<'a, INT, LONG, PTR>,
) -> Result<(), CFault>
    requires model { IsModel INT LONG PTR }
    requires ahead { setting_of known.old ≡ setting (model_of INT LONG PTR) items.now [] }
    ensures passes { Passes result (items_in_order (model_of INT LONG PTR) items.now [] items.now) }
    ensures knows { OnOk result (setting_of known.new ≡ setting (model_of INT LONG PTR) items.now items.now) }
{
    for item in items {
        declare(item, alloc, known)?;
    }
    Ok(())
}
