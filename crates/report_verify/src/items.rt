ghost use Rattle.std.specs.Prelude.{◌≡◌, ◌<◌, ◌+◌, ℕ, true, false, List, All, Contains, Some, IfOk, IfSome, IfNone, length, slice_get, slice_index_or, vec_len};
ghost use Rattle.currency_base.specs.declared.ids.RelId.{RelId};
ghost use Rattle.report_verify.specs.Asked.{AreItemsOf};
ghost use Rattle.report_verify.specs.Shaped.{AreMet, IsItemAt, IsItemOf, is_asked};
ghost use Rattle.spec_model.specs.declared.relation.Relation.{Relation};

use currency_base::{NoMemory, RelId};
use report_model::Current;
use spec_model::Relation;
use std::alloc::Global;

// Are the items exactly those of the entities of the asked relations, in order of relation and entity, each
// with one value per attribute? Goes once over relations, entities and items.
pub(crate) fn are_items_of(
    alloc: Global,
    relations: &[Relation],
    rels: &[RelId],
    items: &[Current],
) -> Result<bool, NoMemory>
    requires { All (λ rel. rel.0 < length relations.now) rels.now }
    ensures are { IfOk result (λ are. are ≡ true → AreItemsOf relations.now rels.now items.now) }
    ensures others { IfOk result (λ are. are ≡ false → AreItemsOf relations.now rels.now items.now → ⊥) }
{
    let marks = asked_marks(alloc, relations.len(), rels)?;
    let mut at = 0;
    for (rel, asked) in marks.as_slice().iter().enumerate() {
        if *asked {
            match after_relation(relations, rel, items, at) {
                Some(next) => at = next,
                None => return Ok(false),
            }
        }
    }
    Ok(at == items.len())
}

// For each relation, is it asked about?
fn asked_marks(alloc: Global, relations: usize, rels: &[RelId]) -> Result<Vec<bool>, NoMemory>
    requires { All (λ rel. rel.0 < relations) rels.now }
    ensures len { IfOk result (λ marks. vec_len marks ≡ relations) }
    ensures marks { IfOk result (λ marks. (rel : ℕ) → rel < relations → slice_index_or marks.items rel false ≡
        is_asked rels.now rel) }
{
    let mut marks = Vec::new(alloc);
    marks.resize(relations, false)?;
    for rel in rels {
        marks[rel.0 as usize] = true;
    }
    Ok(marks)
}

// The place after the items of a relation's entities, if these items stand at a place and on.
fn after_relation(
    relations: &[Relation],
    rel: usize,
    items: &[Current],
    from: usize,
) -> Option<usize>
    requires { rel < length relations.now }
    ensures met { IfSome result (λ at. (rels : List RelId) → is_asked rels rel ≡ true
        → AreMet relations.now rels items.now rel 0 from → AreMet relations.now rels items.now (rel + 1) 0 at) }
    ensures missing { IfNone result ((rels : List RelId) → is_asked rels rel ≡ true
        → AreMet relations.now rels items.now rel 0 from → AreItemsOf relations.now rels items.now → ⊥) }
{
    let relation = &relations[rel];
    let mut at = from;
    for ent in 0..relation.entities.len() {
        if !is_item_at(relation, rel, ent, items, at) {
            return None;
        }
        at += 1;
    }
    Some(at)
}

// Is the item at a place that of an entity of a relation, with one value per attribute?
fn is_item_at(relation: &Relation, rel: usize, ent: usize, items: &[Current], at: usize) -> bool
    ensures is { result ≡ true → IsItemAt relation.now rel ent items.now at }
    ensures other { result ≡ false → IsItemAt relation.now rel ent items.now at → ⊥ }
    ensures within { result ≡ true → at < length items.now }
{
    match items.get(at) {
        Some(item) => is_item_of(relation, rel, ent, item),
        None => false,
    }
}

// Is the item that of an entity of a relation, with one value per attribute?
fn is_item_of(relation: &Relation, rel: usize, ent: usize, item: &Current) -> bool
    ensures is { result ≡ true → IsItemOf relation.now rel ent item.now }
    ensures other { result ≡ false → IsItemOf relation.now rel ent item.now → ⊥ }
{
    item.rel.0 as usize == rel
        && item.ent.0 as usize == ent
        && item.values.len() == relation.attrs.len()
}
