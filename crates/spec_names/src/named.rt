ghost use Rattle.std.specs.Prelude.{◌≡◌, ◌∷◌, ◌++◌, [], map, Contains, IfOk, OnOk};
ghost use Rattle.currency_base.specs.Lists.{OnlyOnce};

use currency_base::{Name, NoMemory, Row};
use name_index::NameIndex;
use spec_model::{Attr, CopyMap, Relation, Rule};
use std::alloc::Global;

/// What has a name.
pub trait Named {
    ghost use Rattle.std.specs.Prelude.{List, ℕ};

    ghost named: { Self → List ℕ };

    /// The name.
    fn name(&self) -> &Name
        ensures { result.now ≡ named self.now };
}

impl Named for Name {
    ghost named = { λ n. n };

    fn name(&self) -> &Name {
        self
    }
}

impl Named for Attr {
    ghost named = { λ a. a.name };

    fn name(&self) -> &Name {
        &self.name
    }
}

impl Named for Row {
    ghost named = { λ row. row.name };

    fn name(&self) -> &Name {
        &self.name
    }
}

impl Named for Relation {
    ghost named = { λ r. r.name };

    fn name(&self) -> &Name {
        &self.name
    }
}

impl Named for Rule {
    ghost named = { λ rule. rule.name };

    fn name(&self) -> &Name {
        &self.name
    }
}

impl Named for CopyMap {
    ghost named = { λ copy. copy.name };

    fn name(&self) -> &Name {
        CopyMap::name(self)
    }
}

/// The names of these items, copied. No two items have one name.
pub fn index_of<T: Named>(alloc: Global, items: &[T]) -> Result<NameIndex, NoMemory>
    requires { OnlyOnce (map T.named items.now) }
    ensures { IfOk result (λ index. index ≡ map T.named items.now) }
{
    let mut index = NameIndex::new(alloc);
    for item in items {
        add_copy(alloc, &mut index, item.name())?;
    }
    Ok(index)
}

/// Adds a copy of a name that is not there.
#[tactic(auto, using(crate::proofs::Places::added))]
fn add_copy(alloc: Global, index: &mut NameIndex, name: &Name) -> Result<(), NoMemory>
    requires { Contains index.old name.now → ⊥ }
    ensures { OnOk result (index.new ≡ index.old ++ name.now ∷ []) }
{
    let _ = index.add(Name::from_bytes(alloc, name.bytes())?)?;
    Ok(())
}
