//! The names of a database, message by message.
ghost use Rattle.std.specs.Prelude.{◌≡◌, ◌++◌, ◌∷◌, [], map, length, is_some, if◌then◌else◌, IfOk};
ghost use Rattle.std.specs.List.{flat_map};
ghost use Rattle.name_rules.specs.Identifier.{identifier_of};
ghost use Rattle.name_rules.specs.IsIdentifier.{IsIdentifier};
ghost use Rattle.name_rules.specs.Wanted.{upper, joined, choice_identifiers, wanted_of_signal, wanted_of_message};
ghost use Rattle.name_rules.specs.Symbols.{one_or_none, file_names_of_signal, file_names_of_message, AllPairs, HasNamesOfSignal, HasNamesOfMessage, AreSymbols};
ghost use Rattle.name_rules.specs.Names.{HasNamesApart};
ghost use Rattle.name_rules.specs.Taken.{PicksIn};
ghost use Rattle.name_rules.specs.Naming.{choice_name, wanted_with, wanted_of_cycle, field_with_local, NamesSignals};

use crate::identifying::identifier;
use crate::picking::{Place, PlaceKind};
use crate::pruning::lost_front;
use crate::table::{MessageNames, SignalNames, SymbolTable};
use can_model::{Choice, Database, Message, Signal};
use cg_out::{List, Memory, Text};
use std::alloc::{AllocError, Global};

/// The names that the C text of a database has: of the file, of each message's struct, and of the
/// local variables of its functions. They are picked in the order of the table: where a name is
/// reserved or stands already in its place, it gets the first suffix of `_2`, `_3` and so on with
/// which it does not. `name` is the database's own, with which those of the file begin. Where
/// `prune` is true the choices of a signal lose what they all begin with, up to a `_`.
pub fn symbols(
    alloc: Global,
    db: &Database,
    name: &Text,
    prune: bool,
) -> Result<SymbolTable, Memory>
    requires name { IsIdentifier name.now }
    ensures picks { IfOk result (AreSymbols db.now name.now prune) }
    ensures apart { IfOk result HasNamesApart }

    // There is one such table.
    ensures only { IfOk result (λ t. (u : SymbolTable) → AreSymbols db.now name.now prune u → u ≡ t) }
{
    let mut file = Place::new(alloc, PlaceKind::File);
    let capitals = upper(alloc, name.bytes())?;
    let guard = pick_ending(alloc, &mut file, &capitals, b"_H")?;
    let messages = of_messages(alloc, &mut file, name.bytes(), prune, db.messages.items())?;
    Ok(SymbolTable { guard, messages })
}

fn of_messages(
    alloc: Global,
    file: &mut Place,
    name: &[u8],
    prune: bool,
    messages: &[Message],
) -> Result<List<MessageNames>, Memory>
    ensures pairs { IfOk result (AllPairs HasNamesOfMessage messages.now) }
    ensures picks { IfOk result (λ ns. PicksIn file.old file.new
        (flat_map (wanted_of_message name.now prune) messages.now) (flat_map file_names_of_message ns)) }
{
    let mut names = List::new(alloc);
    for m in messages {
        let message = joined(alloc, name, identifier(alloc, m.name.bytes())?.bytes())?;
        names.push(of_message(alloc, file, &message, prune, m)?)?;
    }
    Ok(names)
}

/// The names of a message, where those of the file begin with these bytes.
fn of_message(
    alloc: Global,
    file: &mut Place,
    front: &[u8],
    prune: bool,
    m: &Message,
) -> Result<MessageNames, Memory>
    ensures has { IfOk result (HasNamesOfMessage m.now) }
    ensures picks { IfOk result (λ n. PicksIn file.old file.new
        (wanted_with front.now prune m.now) (file_names_of_message n)) }
{
    let capitals = upper(alloc, front)?;
    let frame_id = pick_ending(alloc, file, &capitals, b"_FRAME_ID")?;
    let length = pick_ending(alloc, file, &capitals, b"_LENGTH")?;
    let extended = pick_ending(alloc, file, &capitals, b"_IS_EXTENDED")?;
    let cycle = of_cycle(alloc, file, &capitals, m.cycle)?;
    let tag = pick_ending(alloc, file, front, b"_t")?;
    let pack = pick_ending(alloc, file, front, b"_pack")?;
    let unpack = pick_ending(alloc, file, front, b"_unpack")?;
    let init = pick_ending(alloc, file, front, b"_init")?;
    let signals = of_signals(alloc, file, front, prune, m.signals.items())?;
    Ok(MessageNames {
        frame_id,
        length,
        extended,
        cycle,
        tag,
        pack,
        unpack,
        init,
        signals,
    })
}

fn of_cycle(
    alloc: Global,
    file: &mut Place,
    capitals: &[u8],
    cycle: Option<u32>,
) -> Result<Option<Text>, Memory>
    ensures has { IfOk result (λ n. is_some n ≡ is_some cycle) }
    ensures picks { IfOk result (λ n. PicksIn file.old file.new
        (wanted_of_cycle capitals.now cycle) (one_or_none n)) }
{
    match cycle {
        None => Ok(None),
        Some(_) => Ok(Some(pick_ending(alloc, file, capitals, b"_CYCLE_TIME_MS")?)),
    }
}

/// The names of a message's signals, where those of the file begin with these bytes.
fn of_signals(
    alloc: Global,
    file: &mut Place,
    front: &[u8],
    prune: bool,
    signals: &[Signal],
) -> Result<List<SignalNames>, Memory>
    ensures picks { IfOk result (λ ns. PicksIn file.old file.new
        (flat_map (wanted_of_signal prune front.now) signals.now) (flat_map file_names_of_signal ns)) }
    ensures names { IfOk result (NamesSignals signals.now) }
{
    let mut fields = Place::new(alloc, PlaceKind::Struct);
    let mut locals = Place::new(alloc, PlaceKind::Locals);
    let mut names = List::new(alloc);
    for s in signals {
        names.push(of_signal(alloc, file, &mut fields, &mut locals, front, prune, s)?)?;
    }
    Ok(names)
}

fn of_signal(
    alloc: Global,
    file: &mut Place,
    fields: &mut Place,
    locals: &mut Place,
    front: &[u8],
    prune: bool,
    s: &Signal,
) -> Result<SignalNames, Memory>
    ensures has { IfOk result (HasNamesOfSignal s.now) }
    ensures picks { IfOk result (λ n. PicksIn file.old file.new
        (wanted_of_signal prune front.now s.now) (file_names_of_signal n)) }
    ensures field { IfOk result (λ n. PicksIn fields.old fields.new
        (identifier_of s.now.name ∷ []) (n.field ∷ [])) }
    ensures local { IfOk result (λ n. PicksIn locals.old locals.new
        (field_with_local n) (one_or_none n.local)) }
{
    let id = identifier(alloc, s.name.bytes())?;
    let field = fields.pick(alloc, id.bytes())?;
    let local = of_local(alloc, locals, &field, s.signed)?;
    let signal = joined(alloc, front, id.bytes())?;
    let range = pick_ending(alloc, file, &signal, b"_is_in_range")?;
    let choices = of_choices(alloc, file, &signal, prune, s)?;
    Ok(SignalNames {
        field,
        local,
        range,
        choices,
    })
}

fn of_local(
    alloc: Global,
    locals: &mut Place,
    field: &Text,
    signed: bool,
) -> Result<Option<Text>, Memory>
    ensures has { IfOk result (λ n. is_some n ≡ signed) }
    ensures picks { IfOk result (λ n. PicksIn locals.old locals.new
        (if signed then field.now ∷ [] else []) (one_or_none n)) }
{
    if signed {
        Ok(Some(locals.pick(alloc, field.bytes())?))
    } else {
        Ok(None)
    }
}

/// The macros of a signal's choices, where its names at file scope begin with these bytes.
fn of_choices(
    alloc: Global,
    file: &mut Place,
    front: &[u8],
    prune: bool,
    s: &Signal,
) -> Result<List<Text>, Memory>
    ensures count { IfOk result (λ ns. length ns ≡ length s.now.choices) }
    ensures picks { IfOk result (λ ns. PicksIn file.old file.new
        (map (choice_name front.now) (choice_identifiers prune s.now)) ns) }
{
    let ids = identifiers(alloc, s.choices.items())?;
    let lost = lost_front(&ids, prune);
    let mut names = List::new(alloc);
    for id in &ids {
        let wanted = choice_name(alloc, front, &id.bytes()[lost..])?;
        names.push(file.pick(alloc, &wanted)?)?;
    }
    Ok(names)
}

fn identifiers(alloc: Global, choices: &[Choice]) -> Result<Vec<Text>, Memory>
    ensures { IfOk result (λ v. v.items ≡ map (λ c. identifier_of c.name) choices.now) }
{
    let mut ids = Vec::new(alloc);
    for c in choices {
        ids.push(identifier(alloc, c.name.bytes())?)?;
    }
    Ok(ids)
}

fn choice_name(alloc: Global, front: &[u8], choice: &[u8]) -> Result<Vec<u8>, AllocError>
    ensures { IfOk result (λ v. v.items ≡ choice_name front.now choice.now) }
{
    let mut name = upper(alloc, &joined(alloc, front, choice)?)?;
    name.extend_from_slice(b"_CHOICE")?;
    Ok(name)
}

/// Picks a name where the one of these bytes and this ending is wanted.
fn pick_ending(
    alloc: Global,
    place: &mut Place,
    front: &[u8],
    ending: &[u8],
) -> Result<Text, Memory>
    ensures { IfOk result (λ y. PicksIn place.old place.new
        ((front.now ++ ending.now) ∷ []) (y ∷ [])) }
{
    let mut wanted = Vec::from_slice(alloc, front)?;
    wanted.extend_from_slice(ending)?;
    place.pick(alloc, &wanted)
}

fn upper(alloc: Global, name: &[u8]) -> Result<Vec<u8>, AllocError>
    ensures { IfOk result (λ v. v.items ≡ upper name.now) }
{
    name.iter().map(|b| b.to_ascii_uppercase()).collect(alloc)
}

fn joined(alloc: Global, a: &[u8], b: &[u8]) -> Result<Vec<u8>, AllocError>
    ensures { IfOk result (λ v. v.items ≡ joined a.now b.now) }
{
    let mut both = Vec::from_slice(alloc, a)?;
    both.push(b'_')?;
    both.extend_from_slice(b)?;
    Ok(both)
}
