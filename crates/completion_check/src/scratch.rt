ghost use Rattle.std.specs.Prelude.{◌≡◌, ◌≤◌, length, replicate, IfOk};
ghost use Rattle.spec_model.specs.Facts.{AreRelations};
ghost use Rattle.completion_check.specs.Room.{HasRoom, HasPlaces, HasAllPlaces, HasMembers};

use crate::relations::RelationPlaces;
use crate::row_places::Places;
use currency_base::NoMemory;
use entity_rows::{EntityRows, entity_rows};
use spec_model::{Relation, Specification};
use std::alloc::Global;
use std::marker::Model;

/// Memory that checks of completions of one specification write over, and the rows of its entities.
/// Contracts see what it holds; a check asks only that it has room.
#[derive(Drop)]
pub struct CheckScratch {
    pub(crate) alloc: Global,
    pub(crate) places: Vec<RelationPlaces>,
    pub(crate) members: Vec<EntityRows>,
}

impl Model for CheckScratch {
    ghost use Rattle.completion_check.specs.Room.{Room};

    ghost Value = { Room };

    ghost view = { λ s. record { places = s.places.items; members = s.members.items } };
}

impl CheckScratch {
    /// Room for the relations of a specification.
    pub fn new(alloc: Global, spec: &Specification) -> Result<CheckScratch, NoMemory>
        ensures { IfOk result (HasRoom spec.now.relations) }
    {
        let relations = spec.relations();
        Ok(CheckScratch {
            alloc,
            places: all_places(alloc, relations)?,
            members: all_members(alloc, relations)?,
        })
    }
}

// A place for each row in each attribute, for each relation.
fn all_places(alloc: Global, relations: &[Relation]) -> Result<Vec<RelationPlaces>, NoMemory>
    ensures { IfOk result (λ places. HasAllPlaces relations.now places.items) }
{
    let mut all = Vec::new(alloc);
    for relation in relations {
        all.push(places_of(alloc, relation)?)?;
    }
    Ok(all)
}

/// A place for each row in each attribute of a relation.
pub(crate) fn places_of(alloc: Global, relation: &Relation) -> Result<RelationPlaces, NoMemory>
    ensures { IfOk result (HasPlaces relation.now) }
{
    let rows = relation.rows.len();
    let mut attrs = Vec::new(alloc);
    for _ in 0..relation.attrs.len() {
        attrs.push(Places::new(vec![in alloc; 0; rows]?))?;
    }
    Ok(RelationPlaces::new(attrs))
}

// The rows of each entity, for each relation.
fn all_members(alloc: Global, relations: &[Relation]) -> Result<Vec<EntityRows>, NoMemory>
    requires { AreRelations relations.now }
    ensures { IfOk result (λ members. HasMembers relations.now members.items) }
{
    let mut all = Vec::new(alloc);
    for relation in relations {
        all.push(entity_rows(alloc, relation)?)?;
    }
    Ok(all)
}
