//! Names that are declared outside functions (ISO/IEC 9899:1999, 6.2.1 and 6.9).
ghost use Rattle.std.specs.Prelude.{◌≡◌, [], ◌∷◌, OnOk, IfOk};
ghost use Rattle.std.specs.Option.{option_map};
ghost use Rattle.c_tree.specs.declared.item.Item.TheVariants as spec_item;
ghost use Rattle.name_table.specs.Adds.{Adds};
ghost use Rattle.name_table.specs.Entries.{lent};
ghost use Rattle.c_widths.specs.DataModel.{model_of};
ghost use Rattle.c_types.specs.Setting.{setting, callings, declared_by};
ghost use Rattle.c_types.specs.Behind.{behind_item};
ghost use Rattle.c_types.specs.Shown.{setting_of};

use crate::calling::some_calls;
use crate::fields::Fields;
use crate::named_type::NamedType;
use c_mean::{Function, Item, Struct};
use cg_out::Memory;
use name_table::Table;
use std::alloc::Global;

/// What is known of the items before a place.
#[derive(Drop)]
pub struct Known<'a, const INT: u32, const LONG: u32, const PTR: u32> {
    pub structs: Table<'a, Fields<'a>>,
    pub functions: Table<'a, &'a Function>,
    pub defined: Table<'a, &'a Function>,
    pub calls: Table<'a, bool>,
}

impl<'a, const INT: u32, const LONG: u32, const PTR: u32> Known<'a, INT, LONG, PTR> {
    /// Ahead of all items.
    pub fn new(alloc: Global, items: &'a [Item]) -> Result<Known<'a, INT, LONG, PTR>, Memory>
        ensures { IfOk result (λ k. setting_of k ≡ setting (model_of INT LONG PTR) items.now []) }
    {
        Ok(Known {
            structs: Table::new(alloc),
            functions: Table::new(alloc),
            defined: Table::new(alloc),
            calls: calls_of(alloc, items)?,
        })
    }

    /// The fields of the struct with a tag.
    pub fn fields(&self, tag: &[u8]) -> Option<&Fields<'a>>
        ensures { option_map (λ f. f.now.list.now) result ≡ (setting_of self.now).fields tag.now }
    {
        self.structs.get(tag)
    }

    /// The first declaration of a function.
    pub fn function(&self, name: &[u8]) -> Option<&'a Function>
        ensures { lent result ≡ (setting_of self.now).function name.now }
    {
        self.functions.get(name).copied()
    }

    /// Its definition.
    pub fn defined(&self, name: &[u8]) -> Option<&'a Function>
        ensures { lent result ≡ (setting_of self.now).defined name.now }
    {
        self.defined.get(name).copied()
    }

    /// Whether its definition calls, where the unit has one.
    pub fn calls(&self, name: &[u8]) -> Option<bool>
        ensures { result ≡ (setting_of self.now).calls name.now }
    {
        self.calls.get(name).copied()
    }

    /// Adds a struct, whose fields are in a table.
    pub fn add_struct(
        &mut self,
        x: &'a Struct,
        table: Table<'a, NamedType<'a>>,
    ) -> Result<(), Memory>
        requires { table ≡ declared_by x.now.fields }
        ensures { OnOk result (setting_of self.new ≡ behind_item (spec_item.Struct x.now) (setting_of self.old)) }
    {
        let fields = Fields {
            list: x.fields.items(),
            table,
        };
        self.structs.put_first(x.tag.bytes(), fields)
    }

    /// Adds a prototype or a definition.
    pub fn add_function(&mut self, f: &'a Function) -> Result<(), Memory>
        ensures { OnOk result (setting_of self.new ≡ behind_item (spec_item.Function f.now) (setting_of self.old)) }
    {
        self.functions.put_first(f.name.bytes(), f)?;
        if let Some(_) = &f.body {
            self.defined.put_first(f.name.bytes(), f)?;
        }
        Ok(())
    }
}

/// Every definition, and whether it calls.
fn calls_of<'a>(alloc: Global, items: &'a [Item]) -> Result<Table<'a, bool>, Memory>
    ensures { IfOk result (λ t. Adds [] (callings items.now) t) }
{
    let mut table = Table::new(alloc);
    for item in items {
        add_calls(item, &mut table)?;
    }
    Ok(table)
}

/// Adds an item, if it is a definition.
fn add_calls<'a>(item: &'a Item, table: &mut Table<'a, bool>) -> Result<(), Memory>
    ensures { OnOk result (Adds table.old (callings (item.now ∷ [])) table.new) }
{
    match item {
        Item::Struct(_) => Ok(()),
        Item::Function(f) => match &f.body {
            Some(body) => table.put_first(f.name.bytes(), some_calls(body.items())),
            None => Ok(()),
        },
    }
}
