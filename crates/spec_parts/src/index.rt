ghost use Rattle.std.specs.Prelude.{◌≡◌, ◌++◌, ◌∷◌, ◌<◌, ℕ, [], length, slice_set, slice_index_or, IfOk, OnOk};
ghost use Rattle.spec_model.specs.Facts.{IsRelation};
ghost use Rattle.spec_parts.specs.Index.{AreIndexed, IsIndexed};

use currency_base::{EntId, ItemList, NoMemory, Pair, PairList, RelId};
use spec_model::{Relation, Specification};
use std::alloc::Global;
use std::marker::Model;

/// The given pairs of a specification by relation and entity, so that those of some entities are found without going over all.
#[derive(Drop)]
pub struct GivenIndex {
    lists: ItemList<ItemList<PairList>>,
}

impl Model for GivenIndex {
    ghost use Rattle.std.specs.Prelude.{List};
    ghost use Rattle.currency_base.specs.declared.pair.Pair.{Pair};

    ghost Value = { List (List (List Pair)) };

    ghost view = { λ index. index.lists };
}

impl GivenIndex {
    /// The given pairs of each relation of a specification. Takes time in proportion to its entities and pairs.
    pub fn new(alloc: Global, spec: &Specification) -> Result<GivenIndex, NoMemory>
        ensures { IfOk result (AreIndexed spec.now.relations) }
    {
        let mut lists = ItemList::new(alloc);
        for relation in spec.relations() {
            lists.push(pairs_of(alloc, relation)?)?;
        }
        Ok(GivenIndex { lists })
    }

    /// The given pairs of an entity.
    pub fn of(&self, rel: RelId, ent: EntId) -> &[Pair]
        requires rel { rel.0 < length self.now }
        requires ent { ent.0 < length (slice_index_or self.now rel.0 []) }
        ensures { result.now ≡ slice_index_or (slice_index_or self.now rel.0 []) ent.0 [] }
    {
        let lists = self.lists.get(rel.0 as usize);
        lists.get(ent.0 as usize).as_slice()
    }
}

/// The given pairs of each entity of a relation.
fn pairs_of(alloc: Global, relation: &Relation) -> Result<ItemList<PairList>, NoMemory>
    requires { IsRelation relation.now }
    ensures { IfOk result (IsIndexed relation.now) }
{
    let mut lists = no_pairs(alloc, relation.entities.len())?;
    for pair in relation.given.iter() {
        let entity = relation.rows.row(pair.earlier).entity;
        put_pair(alloc, &mut lists, entity, *pair)?;
    }
    Ok(lists)
}

/// So many lists with no pair.
fn no_pairs(alloc: Global, count: usize) -> Result<ItemList<PairList>, NoMemory>
    ensures many { IfOk result (λ lists. length lists ≡ count) }
    ensures empty { IfOk result (λ lists. (ent : ℕ) → slice_index_or lists ent [] ≡ []) }
{
    let mut lists = ItemList::new(alloc);
    for _ent in 0..count {
        lists.push(PairList::new(alloc))?;
    }
    Ok(lists)
}

/// Puts a pair after the others of an entity.
fn put_pair(
    alloc: Global,
    lists: &mut ItemList<PairList>,
    entity: EntId,
    pair: Pair,
) -> Result<(), NoMemory>
    requires { entity.0 < length lists.old }
    ensures { OnOk result (lists.new ≡ slice_set lists.old entity.0 (slice_index_or lists.old entity.0 [] ++ pair ∷ [])) }
{
    let place = entity.0 as usize;
    let mut list = lists.replace(place, PairList::new(alloc));
    list.push(pair)?;
    lists.replace(place, list);
    Ok(())
}
