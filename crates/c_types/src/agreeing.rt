//! Declarations that agree: equal but for their places (ISO/IEC 9899:1999, 6.2.7 and 6.7).
ghost use Rattle.std.specs.Prelude.{◌≡◌};
ghost use Rattle.c_text.specs.MacroDefinition as tokens;
ghost use Rattle.name_table.specs.Entries.{lent};
ghost use Rattle.c_types.specs.UnitTypes as spec;

use c_mean::{CType, Field, Function, Spelled, Target};

fn same_target(a: &Target, b: &Target) -> bool
    ensures { result ≡ spec.same_target a.now b.now }
{
    match (a, b) {
        (Target::Byte, Target::Byte) => true,
        (Target::Struct(a), Target::Struct(b)) => a.bytes() == b.bytes(),
        _ => false,
    }
}

fn same_spelled(a: Spelled, b: Spelled) -> bool
    ensures { result ≡ tokens.same_spelled a b }
{
    a == b
}

fn same_type(a: &CType, b: &CType) -> bool
    ensures { result ≡ spec.same_type a.now b.now }
{
    match (a, b) {
        (CType::Void, CType::Void) => true,
        (CType::Integer(a), CType::Integer(b)) => same_spelled(*a, *b),
        (
            CType::Pointer {
                target: a,
                constant: first,
            },
            CType::Pointer {
                target: b,
                constant: second,
            },
        ) => same_target(a, b) && *first == *second,
        _ => false,
    }
}

fn same_field(a: &Field, b: &Field) -> bool
    ensures { result ≡ spec.same_field a.now b.now }
{
    same_type(&a.kind, &b.kind) && a.name.bytes() == b.name.bytes()
}

fn same_fields(first: &[Field], second: &[Field]) -> bool
    ensures { result ≡ spec.same_fields first.now second.now }
{
    if first.len() != second.len() {
        return false;
    }
    for (at, field) in first.iter().enumerate() {
        if !same_field(field, &second[at]) {
            return false;
        }
    }
    true
}

fn same_head(f: &Function, g: &Function) -> bool
    ensures { result ≡ spec.same_head f.now g.now }
{
    f.fixed == g.fixed
        && same_type(&f.returns, &g.returns)
        && same_fields(f.params.items(), g.params.items())
}

/// Whether a declaration disagrees with the first of its name, or is a second definition.
pub fn disagrees(f: &Function, first: Option<&Function>, defined: Option<&Function>) -> bool
    ensures { result ≡ spec.disagrees f.now (lent first.entry) (lent defined.entry) }
{
    match first {
        None => false,
        Some(first) => !same_head(f, first) || (f.body.is_some() && defined.is_some()),
    }
}
