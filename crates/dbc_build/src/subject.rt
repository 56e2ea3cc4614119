//! What statements speak of.
ghost use Rattle.std.specs.Prelude.{◌≡◌};
ghost use Rattle.dbc_build.specs.Tables.{is_about, is_key, same_subject};

use dbc_reader::Owner;

/// The message with an id, or the signal of a name in it, as `BO_` and `SG_` give them.
pub type Subject<'a> = (u32, Option<&'a [u8]>);

/// The message or the signal that a comment or an attribute is of, where it is of one.
pub fn subject_of(target: &Owner) -> Option<Subject<'_>>
    ensures { (subject : _) → is_about subject target.now ≡ is_key same_subject subject result }
{
    match target {
        Owner::Message(id) => Some((*id, None)),
        Owner::Signal(id, name) => Some((*id, Some(name.bytes()))),
        _ => None,
    }
}
