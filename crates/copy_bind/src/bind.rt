ghost use Rattle.std.specs.Prelude.{◌≡◌, ◌≤◌, ℕ, List, All, Contains, IfOk, IfSome, map, option_map};
ghost use Rattle.currency_edge.specs.Fault.{Rose};
ghost use Rattle.bind_faults.specs.Faults.{IsDetermined, IsDue, IsReadFault, IsReadFaultOf};
ghost use Rattle.spec_model.specs.Facts.{IsCopyAmong, IsPlaceBetween};
ghost use Rattle.spec_names.specs.Names.{all_names_of};
ghost use Rattle.copy_bind.specs.Copied.{copied};
ghost use Rattle.copy_bind.specs.Made.{IsCopyMade, IsCopyTable, IsMapped, IsTableOf};
ghost use Rattle.copy_bind.specs.Steps.{IsCopyOfHead};

use crate::head::{CopyHead, bind_head};
use crate::map::with_mappings;
use crate::mapping::mappings_named;
use crate::table::read_pairs;
use bind_faults::BindFault;
use copy_functions::CopyMap;
use copy_syntax::{CopyTree, Mappings};
use currency_base::Name;
use currency_edge::Shelf;
use spec_model::Specification;
use spec_names::SpecNames;
use std::alloc::Global;
use text_grammar::NamedPair;

/// The copy function that a copy says of a specification, or its first fault: what its head is refused
/// for; then, where a table lists its mappings, what that is; then the first row that is unknown; and
/// then the first mapping of a row that is mapped already, or differs from its source row.
pub fn bind_copy<S: Shelf>(
    alloc: Global,
    names: &SpecNames,
    spec: &Specification,
    tree: &CopyTree,
    shelf: &mut S,
) -> Result<CopyMap, BindFault>
    requires { names.now ≡ all_names_of spec.now }
    ensures kept { S.texts shelf.new ≡ S.texts shelf.old }
    ensures later { S.faults shelf.old ≤ S.faults shelf.new }
    ensures made { IsDetermined result → IfSome (S.texts shelf.old) (λ told. IsCopyMade told spec.now tree.now result) }
    ensures fits { IfOk result (IsCopyAmong spec.now.relations) }
    ensures fresh { IfOk result (λ copy. Contains (map (λ c. c.name) spec.now.copies) copy.name → ⊥) }
    ensures read_fault { IsReadFault result → Rose (S.faults shelf.old) (S.faults shelf.new) }
    ensures table { (table : List ℕ) → IsReadFaultOf result table → IsCopyTable spec.now tree.now table }
{
    match bind_head(alloc, names, spec, tree) {
        Ok(head) => mapped(alloc, tree, head, shelf),
        Err(fault) => Err(fault),
    }
}

/// The copy function of a head with the mappings of its copy.
fn mapped<S: Shelf>(
    alloc: Global,
    tree: &CopyTree,
    head: CopyHead,
    shelf: &mut S,
) -> Result<CopyMap, BindFault>
    requires { All (IsPlaceBetween head.target.relation head.source.relation) head.places }
    ensures kept { S.texts shelf.new ≡ S.texts shelf.old }
    ensures later { S.faults shelf.old ≤ S.faults shelf.new }
    ensures made { IsDetermined result → IfSome (S.texts shelf.old) (λ told. IsMapped told tree.now.name.name head.entry
        tree.now.mappings result) }
    ensures of { IfOk result (IsCopyOfHead tree.now.name.name head.entry) }
    ensures read_fault { IsReadFault result → Rose (S.faults shelf.old) (S.faults shelf.new) }
    ensures table { (table : List ℕ) → IsReadFaultOf result table → IsTableOf tree.now.mappings table }
{
    let name = &tree.name.name;
    match &tree.mappings {
        Mappings::Inline(pairs) => copied(alloc, name, head, None, pairs.as_slice()),
        Mappings::Table(document) => {
            let document = &document.name;
            match read_pairs(alloc, document, shelf) {
                Ok(pairs) => copied(alloc, name, head, Some(document), pairs.as_slice()),
                Err(fault) => Err(fault),
            }
        }
    }
}

/// The copy function of a head with the mappings that pairs of names say, in the table of that name or
/// in the copy's own text.
fn copied(
    alloc: Global,
    name: &Name,
    head: CopyHead,
    document: Option<&Name>,
    pairs: &[NamedPair],
) -> Result<CopyMap, BindFault>
    requires { All (IsPlaceBetween head.target.relation head.source.relation) head.places }
    ensures due { IsDue (copied name.now head.entry (option_map (λ n. n.now) document.entry) pairs.now) result }
    ensures of { IfOk result (IsCopyOfHead name.now head.entry) }
    ensures reads { IsReadFault result → ⊥ }
{
    // No text has room for 2^32 places.
    if head.places.len() > u32::MAX as usize {
        return Err(BindFault::NoMemory);
    }
    let CopyHead {
        target,
        source,
        places,
    } = head;
    let mappings = mappings_named(alloc, document, target.rows(), source.rows(), pairs)?;
    let name = name.duplicate(alloc)?;
    let copy = CopyMap::new(alloc, name, target.id(), source.id(), places);
    with_mappings(alloc, document, &target, &source, copy, mappings.as_slice())
}
