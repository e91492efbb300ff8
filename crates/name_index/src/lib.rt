//! Names, each with its place, found again without a scan.
#![tactic(auto)]

ghost use Rattle.std.specs.Prelude.{◌≡◌, ◌<◌, ◌∷◌, ◌++◌, [], length, Contains, IfSome, IfNone, IfOk, OnErr, position, slice_get};
ghost use Rattle.std.specs.Str.{bytes_eq};
ghost use Rattle.std.specs.Bool.{OnTrue, OnFalse};
ghost use Rattle.currency_base.specs.Lists.{OnlyOnce};

use currency_base::{Name, NoMemory};
use indexmap::IndexSet;
use std::alloc::Global;
use std::marker::Model;

/// Different names in the order in which they were added. Contracts see the list of them.
#[derive(Drop)]
pub struct NameIndex {
    names: IndexSet<Name>,
}

impl Model for NameIndex {
    ghost use Rattle.std.specs.Prelude.{List, ℕ};

    ghost Value = { List (List ℕ) };

    ghost view = { λ n. n.names.keys };
}

/// Where a name stands, and whether it was added just now.
#[derive(Clone, Copy, PartialEq, Eq)]
pub struct Added {
    pub place: usize,
    pub is_new: bool,
}

impl NameIndex {
    /// An index with no name.
    pub fn new(alloc: Global) -> NameIndex
        ensures { result ≡ [] }
    {
        NameIndex {
            names: IndexSet::new(alloc),
        }
    }

    /// Adds a name at the end, unless it is there already.
    pub fn add(&mut self, name: Name) -> Result<Added, NoMemory>
        ensures place { IfOk result (λ added. slice_get self.new added.place ≡ Some name) }
        ensures fresh { IfOk result (λ added. OnTrue added.is_new (self.new ≡ self.old ++ name ∷ [])) }
        ensures was_new { IfOk result (λ added. OnTrue added.is_new (Contains self.old name → ⊥)) }
        ensures known { IfOk result (λ added. OnFalse added.is_new (self.new ≡ self.old)) }
        ensures err { OnErr result (self.new ≡ self.old) }
    {
        match self.names.insert_full(name) {
            Ok((place, is_new)) => Ok(Added { place, is_new }),
            Err(_) => Err(NoMemory),
        }
    }

    /// The place of a name, counted from 0.
    pub fn find(&self, name: &Name) -> Option<usize>
        ensures place { result ≡ position (bytes_eq name.now) self.now }
        ensures found { IfSome result (λ place. slice_get self.now place ≡ Some name.now) }
        ensures missing { IfNone result (Contains self.now name.now → ⊥) }
    {
        self.names.get_index_of(name)
    }

    /// All names, in order: no name twice.
    pub fn names(&self) -> &[Name]
        ensures value { result.now ≡ self.now }
        ensures distinct { OnlyOnce self.now }
    {
        self.names.as_slice()
    }
}
