//! Names that are picked one after the other, so that no two of one place are equal.
ghost use Rattle.std.specs.Prelude.{◌≡◌, ◌+◌, ◌<◌, ◌≤◌, ◌^◌, ◌∷◌, ◌++◌, ℕ, List, [], map, Some, true, false, IfOk, OnOk, OnErr};
ghost use Rattle.name_rules.specs.Picks.{candidate, and_this};
ghost use Rattle.cg_out.specs.Words.{look_up};
ghost use Rattle.name_rules.specs.Places.{is_reserved_in, seen_name, taken_among, Resumes, IsFirstFree};

use crate::reserved::{is_reserved, is_reserved_local};
use cg_out::{Memory, Text};
use indexmap::IndexMap;
use std::alloc::Global;

/// What the names of a place are.
#[derive(Clone, Copy)]
pub enum PlaceKind {
    /// Names at file scope.
    File,
    /// Fields of a struct.
    Struct,
    /// Local variables of a message's functions.
    Locals,
}

impl PlaceKind {
    fn reserves(self, name: &[u8]) -> bool
        ensures { result ≡ is_reserved_in self name.now }
    {
        match self {
            PlaceKind::File | PlaceKind::Struct => is_reserved(name),
            PlaceKind::Locals => is_reserved_local(name),
        }
    }
}

/// More than the words that are reserved in a place, with the suffixes 0 and 1, which are not tried.
const SPARE: u64 = 100;

/// A name with a suffix.
#[derive(Drop)]
pub struct Candidate {
    pub name: Vec<u8>,
    pub suffix: u64,
}

/// The names that are taken in a place.
#[derive(Drop)]
pub struct Place {
    kind: PlaceKind,
    /// The names that were picked, and the reserved ones that were wanted. With each stands the
    /// suffix that is tried next where it is wanted again, so that a place in which all names
    /// collide takes no more than a few tries for each.
    seen: IndexMap<Vec<u8>, u64>,
    ghost resumes: { (x : List ℕ) (next : ℕ) → look_up x (map seen_name seen.entries) ≡ Some next → Resumes (taken_among kind seen.entries) x next },
}

impl Place {
    ghost use Rattle.name_rules.specs.Taken.{taken_in, PicksIn};

    /// A place without names.
    pub fn new(alloc: Global, kind: PlaceKind) -> Place
        ensures { taken_in result ≡ is_reserved_in kind }
    {
        Place {
            kind,
            seen: IndexMap::new(alloc),
        }
    }

    /// Picks a name where this one is wanted: this one, or the first with a suffix that is free.
    pub fn pick(&mut self, alloc: Global, wanted: &[u8]) -> Result<Text, Memory>
        ensures { IfOk result (λ y. PicksIn self.old self.new (wanted.now ∷ []) (y ∷ [])) }
    {
        if !self.is_taken(wanted) {
            return self.take(alloc, wanted);
        }
        let found = self.first_free(alloc, wanted)?;
        let name = self.take(alloc, &found.name)?;
        self.resume_at(alloc, wanted, found.suffix + 1)?;
        Ok(name)
    }

    fn is_taken(&self, name: &[u8]) -> bool
        ensures { result ≡ taken_in self.now name.now }
    {
        self.seen.contains_key(name) || self.kind.reserves(name)
    }

    /// Takes a free name.
    fn take(&mut self, alloc: Global, name: &[u8]) -> Result<Text, Memory>
        requires { taken_in self.old name.now ≡ false }
        ensures name { IfOk result (λ t. t ≡ name.now) }
        ensures taken { OnOk result (taken_in self.new ≡ and_this (taken_in self.old) name.now) }
    {
        self.seen.insert(Vec::from_slice(alloc, name)?, 2)?;
        Text::copy_of(alloc, name)
    }

    /// Remembers where to go on when a taken name is wanted again.
    fn resume_at(&mut self, alloc: Global, wanted: &[u8], next: u64) -> Result<(), Memory>
        requires taken { taken_in self.old wanted.now ≡ true }
        requires below { Resumes (taken_in self.old) wanted.now next }
        ensures { OnOk result (taken_in self.new ≡ taken_in self.old) }
    {
        self.seen.insert(Vec::from_slice(alloc, wanted)?, next)?;
        Ok(())
    }

    /// The suffix from which on the candidates of a taken name are tried.
    fn next_suffix(&self, wanted: &[u8]) -> u64
        requires { taken_in self.now wanted.now ≡ true }
        ensures { Resumes (taken_in self.now) wanted.now result }
    {
        match self.seen.get(wanted) {
            Some(next) => *next,
            None => 2,
        }
    }

    /// A suffix below which some candidate of each name is free, since fewer names are taken.
    fn limit(&self) -> u64
        ensures { (x : List ℕ) (next : ℕ) → Resumes (taken_in self.now) x next → next < result }
    {
        self.seen.len() as u64 + SPARE
    }

    fn first_free(&self, alloc: Global, wanted: &[u8]) -> Result<Candidate, Memory>
        requires { taken_in self.now wanted.now ≡ true }
        ensures first { IfOk result (IsFirstFree (taken_in self.now) wanted.now) }
        ensures below { IfOk result (λ c. c.suffix + 1 < 2 ^ 64) }
    {
        for suffix in self.next_suffix(wanted)..self.limit() {
            let name = with_suffix(alloc, wanted, suffix)?;
            if !self.is_taken(&name) {
                return Ok(Candidate { name, suffix });
            }
        }
        unreachable!()
    }
}

fn with_suffix(alloc: Global, name: &[u8], suffix: u64) -> Result<Vec<u8>, Memory>
    requires { 2 ≤ suffix }
    ensures { IfOk result (λ v. v.items ≡ candidate name.now suffix) }
{
    let ending = format!(in alloc; "_{suffix}")?;
    let mut whole = Vec::from_slice(alloc, name)?;
    whole.extend_from_slice(ending.as_bytes())?;
    Ok(whole)
}
