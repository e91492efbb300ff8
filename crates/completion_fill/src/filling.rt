ghost use Rattle.std.specs.Prelude.{◌≡◌, ◌<◌, [], OnOk, IfOk, length, slice_index_or, slice_set};
ghost use Rattle.spec_model.specs.Completion.{HasShape, lists_of, ranking_of, with_ranking};
ghost use Rattle.completion_fill.specs.Alike.{AreAlike, IsNarrow, with_lists};
ghost use Rattle.completion_fill.specs.Filled.{filled, list_or, merged};

use currency_base::{AttrId, EntId, NoMemory, RelId, RowId, RowList};
use spec_model::{Completion, Specification};
use std::alloc::Global;

/// Gives a completion, at each place where its list is empty, the list that another one has there. Takes time
/// in proportion to the lists and their rows.
pub fn fill(
    alloc: Global,
    spec: &Specification,
    first: &Completion,
    completion: &mut Completion,
) -> Result<(), NoMemory>
    requires first { HasShape spec.now.relations first.now }
    requires shape { HasShape spec.now.relations completion.old }
    ensures shape { HasShape spec.now.relations completion.new }
    ensures filled { OnOk result (completion.new ≡ filled first.now completion.old) }
{
    for rel in 0..spec.relations().len() {
        fill_relation(alloc, first, completion, RelId(rel as u32))?;
    }
    Ok(())
}

// The same at the places of one relation.
fn fill_relation(
    alloc: Global,
    first: &Completion,
    completion: &mut Completion,
    rel: RelId,
) -> Result<(), NoMemory>
    requires narrow { IsNarrow first.now }
    requires alike { AreAlike first.now completion.old }
    requires rel { rel.0 < length first.now }
    ensures alike { AreAlike first.now completion.new }
    ensures filled { OnOk result (completion.new ≡ slice_set completion.old rel.0
        (merged (merged list_or) (slice_index_or first.now rel.0 []) (slice_index_or completion.old rel.0 []))) }
{
    for attr in 0..first.relation(rel).len() {
        fill_attribute(alloc, first, completion, rel, AttrId(attr as u32))?;
    }
    Ok(())
}

// The same at the places of one attribute.
fn fill_attribute(
    alloc: Global,
    first: &Completion,
    completion: &mut Completion,
    rel: RelId,
    attr: AttrId,
) -> Result<(), NoMemory>
    requires narrow { IsNarrow first.now }
    requires alike { AreAlike first.now completion.old }
    requires rel { rel.0 < length first.now }
    requires attr { attr.0 < length (slice_index_or first.now rel.0 []) }
    ensures alike { AreAlike first.now completion.new }
    ensures filled { OnOk result (completion.new ≡ with_lists completion.old rel.0 attr.0
        (merged list_or (lists_of first.now rel.0 attr.0) (lists_of completion.old rel.0 attr.0))) }
{
    for ent in 0..first.attribute(rel, attr).len() {
        fill_list(alloc, first, completion, rel, attr, EntId(ent as u32))?;
    }
    Ok(())
}

// The same at one place.
fn fill_list(
    alloc: Global,
    first: &Completion,
    completion: &mut Completion,
    rel: RelId,
    attr: AttrId,
    ent: EntId,
) -> Result<(), NoMemory>
    requires alike { AreAlike first.now completion.old }
    requires rel { rel.0 < length first.now }
    requires attr { attr.0 < length (slice_index_or first.now rel.0 []) }
    requires ent { ent.0 < length (lists_of first.now rel.0 attr.0) }
    ensures alike { AreAlike first.now completion.new }
    ensures filled { OnOk result (completion.new ≡ with_ranking completion.old rel.0 attr.0 ent.0
        (list_or (ranking_of first.now rel.0 attr.0 ent.0) (ranking_of completion.old rel.0 attr.0 ent.0))) }
{
    let rows = first.ranking(rel, attr, ent);
    if rows.is_empty() {
        return Ok(());
    }
    if !completion.ranking(rel, attr, ent).is_empty() {
        return Ok(());
    }
    let rows = copied(alloc, rows)?;
    completion.set(rel, attr, ent, rows);
    Ok(())
}

// A list of these rows.
fn copied(alloc: Global, rows: &[RowId]) -> Result<RowList, NoMemory>
    ensures { IfOk result (λ list. list ≡ rows.now) }
{
    match Vec::from_slice(alloc, rows) {
        Ok(items) => Ok(RowList::from_items(items)),
        Err(_) => Err(NoMemory),
    }
}
