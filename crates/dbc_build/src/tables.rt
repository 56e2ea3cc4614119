//! What the statements say, by what they speak of.
ghost use Rattle.std.specs.Prelude.{◌≡◌, ℕ, List as Items, [], ◌&&◌, if◌then◌else◌, bytes_eq, Some, None, OnOk};
ghost use Rattle.std.specs.Borrow.{Bor};
ghost use Rattle.std.specs.Option.{option_copied};
ghost use Rattle.indexmap.specs.IndexMap.{get};
ghost use Rattle.cg_out.specs.Words.{or_else};
ghost use Rattle.dbc_build.specs.Tables.{is_about, is_key, is_signal_of, same_pair, same_subject, Holds, Notes};

use crate::subject::{Subject, subject_of};
use cg_out::{List, Memory, Text};
use dbc_reader::{Body, ChoicePair, Owner, Value};
use indexmap::IndexMap;
use std::alloc::Global;
use std::hash::Hash;

/// What is said last, by what it is said of.
#[derive(Drop)]
pub struct Tables<'a> {
    pub comments: IndexMap<Subject<'a>, &'a Text>,
    pub attributes: IndexMap<(&'a [u8], Subject<'a>), &'a Value>,
    pub defaults: IndexMap<&'a [u8], &'a Value>,
    pub choices: IndexMap<Subject<'a>, &'a List<ChoicePair>>,
    pub value_types: IndexMap<Subject<'a>, &'a u32>,
}

impl<'a> Tables<'a> {
    pub fn new(alloc: Global) -> Tables<'a>
        ensures { Holds result [] }
    {
        Tables {
            comments: IndexMap::new(alloc),
            attributes: IndexMap::new(alloc),
            defaults: IndexMap::new(alloc),
            choices: IndexMap::new(alloc),
            value_types: IndexMap::new(alloc),
        }
    }

    /// Notes what one statement more says.
    pub fn note(&mut self, body: &'a Body) -> Result<(), Memory>
        ensures { OnOk result (Notes self.old body.now self.new) }
    {
        match body {
            Body::Comment { target, text } => put(&mut self.comments, subject_of(target), text),
            Body::Attribute {
                name,
                target,
                value,
            } => { put(&mut self.attributes, attribute_of(name, target), value) }
            Body::Default { name, value } => put(&mut self.defaults, Some(name.bytes()), value),
            Body::Choices { id, name, pairs } => {
                put(&mut self.choices, signal_of(*id, name), pairs)
            }
            Body::ValueType { id, name, number } => {
                put(&mut self.value_types, signal_of(Some(*id), name), number)
            }
            _ => Ok(()),
        }
    }
}

/// The key of an attribute's value, where its target is a message or a signal.
fn attribute_of<'a>(name: &'a Text, target: &'a Owner) -> Option<(&'a [u8], Subject<'a>)>
    ensures { (n : _) (s : _) → is_key same_pair (n, s) result ≡ bytes_eq name.now n.now && is_about s target.now }
{
    let subject = subject_of(target)?;
    Some((name.bytes(), subject))
}

/// The signal of this name in the message with this id; where there is no id it is a variable.
fn signal_of(id: Option<u32>, name: &Text) -> Option<Subject<'_>>
    ensures { (i : ℕ) (n : Bor (Items ℕ)) → is_key same_subject (i, Some n) result ≡ is_signal_of i n.now id name.now }
{
    let id = id?;
    Some((id, Some(name.bytes())))
}

/// Puts the value under the key, where there is one, in the place of what the table has there.
fn put<'a, K: Eq + Hash + Drop, V>(
    table: &mut IndexMap<K, &'a V>,
    key: Option<K>,
    value: &'a V,
) -> Result<(), Memory>
    ensures { OnOk result ((k : K) → option_copied (get K.eq table.new k)
        ≡ or_else (if is_key K.eq k key then Some value.now else None) (option_copied (get K.eq table.old k))) }
{
    if let Some(key) = key {
        table.insert(key, value)?;
    }
    Ok(())
}
