ghost use Rattle.std.specs.Prelude.{◌≡◌, ◌<◌, ◌^◌, ℕ, Some, IfOk, IfSome, length, map, option_map, slice_get};
ghost use Rattle.spec_model.specs.Facts.{IsRelation, AreRelations};
ghost use Rattle.order_squares.specs.Entities.{grouping_of, count_of, entities_in, members_of};

use currency_base::{EntId, NoMemory, RelId, RowId};
use entity_lists::EntityLists;
use spec_model::Relation;
use std::alloc::Global;
use std::marker::Model;

/// The rows of the entities of each relation. Contracts see the relations.
#[derive(Drop)]
pub(crate) struct Groups<'a> {
    relations: &'a [Relation],
    lists: Vec<EntityLists>,
}

impl<'a> Model for Groups<'a> {
    ghost use Rattle.std.specs.Prelude.{List};
    ghost use Rattle.spec_model.specs.declared.relation.Relation.{Relation};
    ghost use Rattle.order_squares.specs.Entities.{AreGrouped};

    ghost Value = { List Relation };

    ghost view = { λ g. g.relations.now };

    ghost invariant = { λ g. AreGrouped g.relations.now g.lists.items };
}

impl<'a> Groups<'a> {
    /// The rows of these relations' entities.
    pub(crate) fn new(alloc: Global, relations: &'a [Relation]) -> Result<Groups<'a>, NoMemory>
        requires { AreRelations relations.now }
        ensures { IfOk result (λ groups. groups ≡ relations.now) }
    {
        let lists = lists_of(alloc, relations)?;
        Ok(Groups { relations, lists })
    }

    /// The relations.
    pub(crate) fn relations(&self) -> &[Relation]
        ensures value { result.now ≡ self.now }
        ensures facts { AreRelations self.now }
    {
        self.relations
    }

    // The rows of a relation's entities.
    fn lists(&self, rel: RelId) -> &EntityLists
        requires { rel.0 < length self.now }
        ensures count { result.now.count ≡ count_of self.now rel.0 }
        ensures entities { result.now.entities ≡ entities_in self.now rel.0 }
    {
        &self.lists[rel.0 as usize]
    }

    /// The rows of an entity of a relation, ascending.
    pub(crate) fn members(&self, rel: RelId, ent: EntId) -> &[RowId]
        requires { ent.0 < count_of self.now rel.0 }
        ensures value { result.now ≡ members_of self.now rel.0 ent.0 }
        ensures few { length result.now < 2 ^ 32 }
    {
        let lists = self.lists(rel);
        let _ = lists.rows();
        lists.of_entity(ent)
    }

    /// The entity of a row of a relation, if the row is there.
    pub(crate) fn entity(&self, rel: RelId, row: RowId) -> Option<EntId>
        requires { rel.0 < length self.now }
        ensures value { option_map (λ e. e.0) result ≡ slice_get (entities_in self.now rel.0) row.0 }
        ensures within { IfSome result (λ e. e.0 < count_of self.now rel.0) }
    {
        let lists = self.lists(rel);
        if (row.0 as usize) < lists.rows() {
            Some(lists.entity(row))
        } else {
            None
        }
    }

    /// The place of a row among the rows of its entity.
    pub(crate) fn place(&self, rel: RelId, row: RowId) -> usize
        requires { row.0 < length (entities_in self.now rel.0) }
        ensures { (ent : ℕ) → slice_get (entities_in self.now rel.0) row.0 ≡ Some ent
            → slice_get (members_of self.now rel.0 ent) result ≡ Some row }
    {
        self.lists(rel).place(row)
    }
}

// For each relation the rows of its entities.
fn lists_of(alloc: Global, relations: &[Relation]) -> Result<Vec<EntityLists>, NoMemory>
    requires { AreRelations relations.now }
    ensures { IfOk result (λ lists. lists.items ≡ map grouping_of relations.now) }
{
    let mut all = Vec::new(alloc);
    for relation in relations {
        all.push(lists_in(alloc, relation)?)?;
    }
    Ok(all)
}

// The rows of a relation's entities.
fn lists_in(alloc: Global, relation: &Relation) -> Result<EntityLists, NoMemory>
    requires { IsRelation relation.now }
    ensures { IfOk result (λ lists. lists ≡ grouping_of relation.now) }
{
    EntityLists::new(alloc, relation.rows.as_slice(), relation.entities.len())
}
