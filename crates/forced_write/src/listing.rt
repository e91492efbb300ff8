ghost use Rattle.std.specs.Prelude.{◌≡◌, ◌<◌, ◌+◌, ◌++◌, ◌∷◌, [], All, List, Some, IfOk, OnOk, length, slice_get};
ghost use Rattle.currency_base.specs.declared.ids.RowId.{RowId};
ghost use Rattle.spec_model.specs.Facts.{IsRelation, IsSpecification};
ghost use Rattle.spec_model.specs.declared.relation.Relation.{Relation};
ghost use Rattle.report_model.specs.Writable.{IsPairOf};
ghost use Rattle.forced_write.specs.Listing.{AreForcedPairs, AreListed, IsColumn};

use currency_base::{AttrId, NoMemory, Pair, RelId, RowId};
use entity_lists::EntityLists;
use forced_closure::Closure;
use spec_model::{Asked, AskedList, Relation, Specification};
use std::alloc::Global;

/// The forced pairs of a specification, in order of relation, attribute, earlier row and later row.
pub(crate) fn forced_pairs(
    alloc: Global,
    spec: &Specification,
    closure: &Closure<'_>,
) -> Result<AskedList, NoMemory>
    requires { closure.now.spec ≡ spec.now }
    ensures pairs { IfOk result (AreForcedPairs spec.now) }
    ensures named { IfOk result (All (IsPairOf spec.now.relations)) }
{
    keeps_facts(spec);
    let mut pairs = AskedList::new(alloc);
    for rel in 0..spec.relations().len() {
        list_relation(alloc, spec, closure, RelId(rel as u32), &mut pairs)?;
    }
    Ok(pairs)
}

/// A law: what every specification keeps.
fn keeps_facts(spec: &Specification)
    ensures { IsSpecification spec.now }
{
    let _ = spec.relations().len();
    let _ = spec.rules().len();
    let _ = spec.copies().len();
}

// A relation of a specification.
fn relation_at(spec: &Specification, rel: RelId) -> &Relation
    requires { rel.0 < length spec.now.relations }
    ensures value { slice_get spec.now.relations rel.0 ≡ Some result.now }
    ensures facts { IsRelation result.now }
{
    &spec.relations()[rel.0 as usize]
}

// Lists those of a relation.
fn list_relation(
    alloc: Global,
    spec: &Specification,
    closure: &Closure<'_>,
    rel: RelId,
    pairs: &mut AskedList,
) -> Result<(), NoMemory>
    requires closure { closure.now.spec ≡ spec.now }
    requires facts { IsSpecification spec.now }
    requires rel { rel.0 < length spec.now.relations }
    requires listed { AreListed spec.now rel.0 0 0 [] pairs.old }
    ensures { OnOk result (AreListed spec.now (rel.0 + 1) 0 0 [] pairs.new) }
{
    let relation = relation_at(spec, rel);
    let lists = EntityLists::new(alloc, relation.rows.as_slice(), relation.entities.len())?;
    for attr in 0..relation.attrs.len() {
        list_attribute(closure, &lists, rel, AttrId(attr as u32), pairs)?;
    }
    Ok(())
}

// Lists those of an attribute.
fn list_attribute(
    closure: &Closure<'_>,
    lists: &EntityLists,
    rel: RelId,
    attr: AttrId,
    pairs: &mut AskedList,
) -> Result<(), NoMemory>
    requires column { IsColumn closure.now.spec lists.now rel.0 attr.0 }
    requires listed { AreListed closure.now.spec rel.0 attr.0 0 [] pairs.old }
    ensures { OnOk result (AreListed closure.now.spec rel.0 (attr.0 + 1) 0 [] pairs.new) }
{
    for row in 0..lists.rows() {
        list_row(closure, lists, rel, attr, RowId(row as u32), pairs)?;
    }
    Ok(())
}

// Lists those of an earlier row.
fn list_row(
    closure: &Closure<'_>,
    lists: &EntityLists,
    rel: RelId,
    attr: AttrId,
    earlier: RowId,
    pairs: &mut AskedList,
) -> Result<(), NoMemory>
    requires column { IsColumn closure.now.spec lists.now rel.0 attr.0 }
    requires row { earlier.0 < length lists.now.entities }
    requires listed { AreListed closure.now.spec rel.0 attr.0 earlier.0 [] pairs.old }
    ensures { OnOk result (AreListed closure.now.spec rel.0 attr.0 (earlier.0 + 1) [] pairs.new) }
{
    for later in lists.of_entity(lists.entity(earlier)) {
        let pair = Pair {
            attr,
            earlier,
            later: *later,
        };
        list_pair(closure, rel, pair, pairs)?;
    }
    Ok(())
}

// Lists a pair, if it is forced.
fn list_pair(
    closure: &Closure<'_>,
    rel: RelId,
    pair: Pair,
    pairs: &mut AskedList,
) -> Result<(), NoMemory>
    requires rel { rel.0 < length closure.now.spec.relations }
    requires attr { (r : Relation) → slice_get closure.now.spec.relations rel.0 ≡ Some r → pair.attr.0 < length r.attrs }
    ensures { OnOk result ((laters : List RowId) → All (λ row. row.0 < pair.later.0) laters
        → AreListed closure.now.spec rel.0 pair.attr.0 pair.earlier.0 laters pairs.old
        → AreListed closure.now.spec rel.0 pair.attr.0 pair.earlier.0 (laters ++ pair.later ∷ []) pairs.new) }
{
    if !closure.has(rel, pair) {
        return Ok(());
    }
    pairs.push(Asked { rel, pair })
}
