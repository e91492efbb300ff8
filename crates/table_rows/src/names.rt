ghost use Rattle.std.specs.Prelude.{◌≡◌, ◌+◌, ◌^◌, ◌<◌, ◌∷◌, ◌++◌, [], true, false, Some, IfOk, length, slice_get};
ghost use Rattle.std.specs.Bool.{OnTrue, OnFalse};
ghost use Rattle.std.specs.List.{list_any};
ghost use Rattle.std.specs.Str.{bytes_eq};
ghost use Rattle.table_rows.specs.Rows.{first_standing};

use currency_base::{EntId, Name, NoMemory};
use name_index::NameIndex;
use std::alloc::Global;

/// Adds a copy of a name where it is new, and says whether it was.
#[tactic(auto, using(crate::proofs::Standing::taken, crate::proofs::Standing::untaken))]
pub fn add_copy(alloc: Global, names: &mut NameIndex, name: &Name) -> Result<bool, NoMemory>
    ensures fresh { IfOk result (λ is_new. OnTrue is_new (list_any (bytes_eq name.now) names.old ≡ false)) }
    ensures taken { IfOk result (λ is_new. OnFalse is_new (list_any (bytes_eq name.now) names.old ≡ true)) }
    ensures names { IfOk result (λ is_new. OnTrue is_new (names.new ≡ names.old ++ name.now ∷ [])) }
{
    let copy = Name::from_bytes(alloc, name.bytes())?;
    let added = names.add(copy)?;
    Ok(added.is_new)
}

/// The entity of a name, which is added where it is new.
#[tactic(auto, using(crate::proofs::Standing::stands_added))]
pub fn entity_of(entities: &mut NameIndex, name: Name) -> Result<EntId, NoMemory>
    requires { length entities.old + 1 < 2 ^ 32 }
    ensures entities { IfOk result (λ _. entities.new ≡ first_standing entities.old (name ∷ [])) }
    ensures place { IfOk result (λ entity. slice_get entities.new entity.0 ≡ Some name) }
{
    let added = entities.add(name)?;
    Ok(EntId(added.place as u32))
}
