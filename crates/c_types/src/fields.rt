//! The fields of structs (ISO/IEC 9899:1999, 6.7.2.1).
ghost use Rattle.std.specs.Prelude.{◌≡◌};
ghost use Rattle.std.specs.Option.{option_map};
ghost use Rattle.cg_out.specs.Words.{look_up};
ghost use Rattle.name_table.specs.Entries.{lent};
ghost use Rattle.c_types.specs.FieldNamed.{field_named};
ghost use Rattle.c_types.specs.Setting.{declared_by};

use crate::named_type::NamedType;
use c_mean::Field;
use name_table::Table;

/// The fields of a struct, in order and by name.
#[derive(Drop)]
pub struct Fields<'a> {
    pub list: &'a [Field],
    pub table: Table<'a, NamedType<'a>>,
    pub ghost same: { table ≡ declared_by list.now },
}

impl<'a> Fields<'a> {
    /// The type of the field with a name.
    pub fn get(&self, name: &[u8]) -> Option<&NamedType<'a>>
        ensures { lent result ≡ look_up name.now (declared_by self.now.list.now) }
    {
        self.table.get(name)
    }

    /// The field with a name, beside its number.
    pub fn numbered(&self, name: &[u8]) -> Option<(usize, &'a Field)>
        ensures { option_map (λ f. (f.0, f.1.now)) result ≡ field_named name.now self.now.list.now }
    {
        let number = self.table.position(name)?;
        let field = self.list.get(number)?;
        Some((number, field))
    }
}
