ghost use Rattle.std.specs.Prelude.{◌≡◌, ◌<◌, ℕ, List, [], IfOk, length, slice_index_or};
ghost use Rattle.currency_base.specs.declared.ids.RowId.{RowId};
ghost use Rattle.spec_model.specs.declared.relation.Relation.{Relation};
ghost use Rattle.spec_model.specs.Completion.{Rankings, HasShape, IsBlank, lists_of, ranking_of, with_ranking};
ghost use Rattle.spec_model.specs.Blank.{blank_lists, blank_rankings, blank_of};

use crate::Specification;
use currency_base::{AttrId, EntId, ItemList, NoMemory, RelId, RowId, RowList};
use std::alloc::Global;
use std::marker::Model;

/// The rankings of an attribute of a relation, one per entity.
pub type AttributeRankings = ItemList<RowList>;
/// The rankings of a relation, one list of them per attribute.
pub type RelationRankings = ItemList<AttributeRankings>;

/// An order of each entity's rows, attribute by attribute. Contracts see it as a list per relation, of
/// a list per attribute, of a list of rows per entity, the oldest first.
#[derive(Drop)]
pub struct Completion {
    alloc: Global,
    rankings: ItemList<RelationRankings>,
}

impl Model for Completion {
    ghost use Rattle.std.specs.Prelude.{List};
    ghost use Rattle.currency_base.specs.declared.ids.RowId.{RowId};

    ghost Value = { List (List (List (List RowId))) };

    ghost view = { λ c. c.rankings };
}

impl Completion {
    /// A list with no row for each relation, attribute and entity of the specification.
    pub fn new(alloc: Global, spec: &Specification) -> Result<Completion, NoMemory>
        ensures shape { IfOk result (HasShape spec.now.relations) }
        ensures value { IfOk result (λ c. c ≡ blank_of spec.now.relations) }
        ensures blank { IfOk result IsBlank }
    {
        let mut rankings = ItemList::new(alloc);
        for relation in spec.relations() {
            let attrs = relation.attrs.len();
            let blank = blank_relation(alloc, attrs, relation.entities.len())?;
            rankings.push(blank)?;
        }
        Ok(Completion { alloc, rankings })
    }

    /// Replaces the list of an attribute and an entity of a relation.
    pub fn set(&mut self, rel: RelId, attr: AttrId, ent: EntId, rows: RowList)
        requires rel { rel.0 < length self.old }
        requires attr { attr.0 < length (slice_index_or self.old rel.0 []) }
        requires ent { ent.0 < length (lists_of self.old rel.0 attr.0) }
        ensures { self.new ≡ with_ranking self.old rel.0 attr.0 ent.0 rows }
    {
        let mut attrs = self
            .rankings
            .replace(rel.0 as usize, RelationRankings::new(self.alloc));
        let mut entities = attrs.replace(attr.0 as usize, AttributeRankings::new(self.alloc));
        let _ = entities.replace(ent.0 as usize, rows);
        let _ = attrs.replace(attr.0 as usize, entities);
        let _ = self.rankings.replace(rel.0 as usize, attrs);
    }

    /// The list of an attribute and an entity of a relation.
    pub fn ranking(&self, rel: RelId, attr: AttrId, ent: EntId) -> &[RowId]
        requires rel { rel.0 < length self.now }
        requires attr { attr.0 < length (slice_index_or self.now rel.0 []) }
        requires ent { ent.0 < length (lists_of self.now rel.0 attr.0) }
        ensures { result.now ≡ ranking_of self.now rel.0 attr.0 ent.0 }
    {
        self.attribute(rel, attr).get(ent.0 as usize).as_slice()
    }

    /// The lists of an attribute of a relation, one per entity.
    pub fn attribute(&self, rel: RelId, attr: AttrId) -> &AttributeRankings
        requires rel { rel.0 < length self.now }
        requires attr { attr.0 < length (slice_index_or self.now rel.0 []) }
        ensures { result.now ≡ lists_of self.now rel.0 attr.0 }
    {
        self.relation(rel).get(attr.0 as usize)
    }

    /// The lists of a relation, one list of them per attribute.
    pub fn relation(&self, rel: RelId) -> &RelationRankings
        requires { rel.0 < length self.now }
        ensures { result.now ≡ slice_index_or self.now rel.0 [] }
    {
        self.rankings.get(rel.0 as usize)
    }
}

/// A law: a completion keeps its shape when one of its lists is replaced.
pub fn set_keeps_shape()
    ensures { (relations : List Relation) (c : Rankings) (rel attr ent : ℕ) (list : List RowId) → HasShape relations c
        → HasShape relations (with_ranking c rel attr ent list) }
{}

// A list with no row for each of so many entities.
fn blank_attribute(alloc: Global, entities: usize) -> Result<AttributeRankings, NoMemory>
    ensures { IfOk result (λ lists. lists ≡ blank_lists entities) }
{
    let mut lists = ItemList::new(alloc);
    for _ in 0..entities {
        lists.push(RowList::new(alloc))?;
    }
    Ok(lists)
}

// The lists of so many attributes and entities, with no row.
fn blank_relation(
    alloc: Global,
    attrs: usize,
    entities: usize,
) -> Result<RelationRankings, NoMemory>
    ensures { IfOk result (λ lists. lists ≡ blank_rankings attrs entities) }
{
    let mut lists = ItemList::new(alloc);
    for _ in 0..attrs {
        let blank = blank_attribute(alloc, entities)?;
        lists.push(blank)?;
    }
    Ok(lists)
}
