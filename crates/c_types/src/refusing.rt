//! Faults of types, and what is wanted of an expression.
ghost use Rattle.std.specs.Prelude.{◌≡◌};
ghost use Rattle.c_types.specs.TypeFault.{when};
ghost use Rattle.c_types.specs.ExpressionTypes as spec;
ghost use Rattle.c_types.specs.Verdict.{Passes, wanted_shown, sort_shown};
ghost use Rattle.c_text.specs.declared.refusal.CKind.TheVariants.{TypeMismatch};

use c_mean::{CFault, CKind, Place};

/// What an expression is.
#[derive(Clone, Copy)]
pub enum Sort {
    /// An integer, or what cannot be told.
    Number,
    /// `NULL`.
    Null,
    /// A pointer to `uint8_t`.
    Bytes,
    /// A pointer to a struct.
    Struct,
    /// What a void function gives.
    Void,
    /// A function that is not called.
    Function,
}

/// What is wanted of an expression.
#[derive(Clone, Copy)]
pub enum Wanted {
    AnInteger,
    Anything,
    /// The name of a pointer to bytes.
    ABytePointer,
}

/// Refuses where a test holds.
#[tactic(auto, unfolding(crate::specs::Verdict::Refuses))]
pub fn refuse_if(bad: bool, kind: CKind, place: Place) -> Result<(), CFault>
    ensures { Passes result (when bad kind place) }
{
    if bad {
        return Err(CFault::Fault { kind, place });
    }
    Ok(())
}

pub fn mismatch(place: Place) -> CFault
    ensures { result ≡ CFault.Fault TypeMismatch place }
{
    CFault::Fault {
        kind: CKind::TypeMismatch,
        place,
    }
}

/// Where an integer is wanted.
#[tactic(auto, unfolding(crate::specs::Verdict::Refuses))]
fn fit_integer(sort: Sort, place: Place) -> Result<(), CFault>
    ensures { Passes result (spec.integer_faults (sort_shown sort) place) }
{
    match sort {
        Sort::Number => Ok(()),
        _ => Err(mismatch(place)),
    }
}

/// Where the name of a pointer to bytes is.
#[tactic(auto, unfolding(crate::specs::Verdict::Refuses))]
fn fit_bytes(sort: Sort, place: Place) -> Result<(), CFault>
    ensures { Passes result (spec.name_misfit spec.a_byte_pointer (sort_shown sort) place) }
{
    match sort {
        Sort::Bytes => Ok(()),
        _ => Err(mismatch(place)),
    }
}

/// Of an integer.
#[tactic(auto, unfolding(crate::specs::Verdict::Refuses))]
pub fn fit_number(wanted: Wanted, place: Place) -> Result<(), CFault>
    ensures { Passes result (spec.number_misfit (wanted_shown wanted) place) }
{
    match wanted {
        Wanted::ABytePointer => Err(mismatch(place)),
        Wanted::AnInteger => Ok(()),
        Wanted::Anything => Ok(()),
    }
}

/// Of a name.
pub fn fit_name(wanted: Wanted, sort: Sort, place: Place) -> Result<(), CFault>
    ensures { Passes result (spec.name_misfit (wanted_shown wanted) (sort_shown sort) place) }
{
    match wanted {
        Wanted::Anything => Ok(()),
        Wanted::AnInteger => fit_integer(sort, place),
        Wanted::ABytePointer => fit_bytes(sort, place),
    }
}

/// Of any other expression.
#[tactic(auto, unfolding(crate::specs::Verdict::Refuses))]
pub fn fit(wanted: Wanted, sort: Sort, place: Place) -> Result<(), CFault>
    ensures { Passes result (spec.misfit (wanted_shown wanted) (sort_shown sort) place) }
{
    match wanted {
        Wanted::Anything => Ok(()),
        Wanted::AnInteger => fit_integer(sort, place),
        Wanted::ABytePointer => Err(mismatch(place)),
    }
}

pub fn is_pointer(sort: Sort) -> bool
    ensures { result ≡ spec.is_pointer (sort_shown sort) }
{
    matches!(sort, Sort::Null | Sort::Bytes | Sort::Struct)
}

pub fn is_null(sort: Sort) -> bool
    ensures { result ≡ spec.is_null (sort_shown sort) }
{
    matches!(sort, Sort::Null)
}
