ghost use Rattle.std.specs.Prelude.{◌≡◌, ◌<◌, length, slice_get, All, IfSome, IfOk, OnOk};
ghost use Rattle.spec_model.specs.Facts.{IsRelation, IsGivenPair};
ghost use Rattle.spec_names.specs.Names.{names_of, all_names_of};
ghost use Rattle.bind_faults.specs.Faults.{IsDue, IsReadFault};
ghost use Rattle.order_bind.specs.Orders.{ordered, ordered_pairs, AddsAllGiven, Steps};

use crate::resolve::{checked, resolve_all};
use bind_faults::{BindFault, find};
use currency_base::{AttrId, ErrorCode, NoMemory, Pair, PairList, RelId};
use spec_model::{Relation, Specification};
use spec_names::{RelationNames, SpecNames};
use spec_syntax::OrderingTree;
use std::alloc::Global;

/// The pairs that an ordering says of its relation, or its first fault.
fn pairs_of(
    alloc: Global,
    names: &RelationNames,
    relation: &Relation,
    ordering: &OrderingTree,
) -> Result<PairList, BindFault>
    requires names { names.now ≡ names_of relation.now }
    requires facts { IsRelation relation.now }
    ensures due { IsDue (ordered_pairs relation.now ordering.now) result }
    ensures given { IfOk result (All (IsGivenPair relation.now)) }
{
    let named = ordering.pairs.as_slice();
    let attr = find(&names.attrs, &ordering.attr, ErrorCode::UnknownName)?;
    let pairs = resolve_all(alloc, &names.rows, AttrId(attr as u32), named)?;
    checked(relation.rows.as_slice(), named, pairs)
}

/// Adds given pairs to a relation. Want of memory may leave some of them added.
pub fn add_all(spec: &mut Specification, rel: RelId, pairs: &[Pair]) -> Result<(), NoMemory>
    requires within { rel.0 < length spec.old.relations }
    requires given { IfSome (slice_get spec.old.relations rel.0) (λ r. All (IsGivenPair r) pairs.now) }
    ensures ok { OnOk result (AddsAllGiven spec.old.relations spec.new.relations rel.0 pairs.now) }
    ensures rules { spec.new.rules ≡ spec.old.rules }
    ensures copies { spec.new.copies ≡ spec.old.copies }
    ensures names { all_names_of spec.new ≡ all_names_of spec.old }
{
    for pair in pairs {
        spec.add_given(rel, *pair)?;
    }
    Ok(())
}

/// Adds the pairs of an ordering to its relation. The names are those of the specification's parts. An
/// unknown relation is refused first, then an unknown attribute, the first unknown row, and the first
/// pair that is not of two different rows of one entity. Want of memory may leave some pairs added.
pub fn bind_order(
    alloc: Global,
    names: &SpecNames,
    spec: &mut Specification,
    ordering: &OrderingTree,
) -> Result<(), BindFault>
    requires { names.now ≡ all_names_of spec.old }
    ensures step { Steps spec.new.relations (ordered spec.old.relations ordering.now) result }
    ensures rules { spec.new.rules ≡ spec.old.rules }
    ensures copies { spec.new.copies ≡ spec.old.copies }
    ensures names { all_names_of spec.new ≡ all_names_of spec.old }
    ensures reads { IsReadFault result → ⊥ }
{
    let rel = find(
        names.relations(),
        &ordering.relation,
        ErrorCode::UnknownName,
    )?;
    let relation = &spec.relations()[rel];
    let pairs = pairs_of(alloc, names.relation(rel), relation, ordering)?;
    match add_all(spec, RelId(rel as u32), pairs.as_slice()) {
        Ok(()) => Ok(()),
        Err(_) => Err(BindFault::NoMemory),
    }
}
