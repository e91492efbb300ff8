ghost use Rattle.std.specs.Prelude.{◌≡◌, [], OnOk, Some, None, if◌then◌else◌};
ghost use Rattle.std.specs.Str.{bytes_eq};
ghost use Rattle.query_bind.specs.Steps.{kind_for, Notes};

use currency_base::{Name, NoMemory, ValueKind};
use std::alloc::Global;
use std::collections::HashMap;
use std::marker::Model;

/// Kinds that are noted of names, the first of each. Contracts see the names with their kinds.
#[derive(Drop)]
pub struct NotedKinds {
    map: HashMap<Name, ValueKind>,
}

impl Model for NotedKinds {
    ghost use Rattle.std.specs.Prelude.{List, ℕ};
    ghost use Rattle.currency_base.specs.declared.value.ValueKind.{ValueKind};

    ghost Value = { List (List ℕ × ValueKind) };

    ghost view = { λ n. n.map.entries };
}

impl NotedKinds {
    /// No kind of any name.
    pub fn new(alloc: Global) -> NotedKinds
        ensures { result ≡ [] }
    {
        NotedKinds {
            map: HashMap::new(alloc),
        }
    }

    /// The kind of a name, if one is noted.
    pub fn get(&self, name: &Name) -> Option<ValueKind>
        ensures { result ≡ kind_for self.now name.now }
    {
        self.map.get(name).copied()
    }

    /// Notes the kind of a name, unless it has one.
    pub fn note(&mut self, alloc: Global, name: &Name, kind: ValueKind) -> Result<(), NoMemory>
        ensures { OnOk result (Notes self.old self.new (λ n. if bytes_eq n name.now then Some kind else None)) }
    {
        if self.map.contains_key(name) {
            return Ok(());
        }
        let _ = self.map.insert(name.duplicate(alloc)?, kind)?;
        Ok(())
    }
}
