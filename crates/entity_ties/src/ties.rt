ghost use Rattle.std.specs.Prelude.{◌≡◌, ◌<◌, ◌↔◌, All, Contains, Some, length, map, IfOk};
ghost use Rattle.part_laws.specs.Parts.{ArePlacesOf, IsClosed};
ghost use Rattle.spec_model.specs.Facts.{AreRelations};
ghost use Rattle.entity_ties.specs.Labels.{AreTies, cell, grouping_of, label_of, labelling, labels_in, scope_of};
ghost use Rattle.entity_ties.specs.Parts.{AreHeld};
ghost use Rattle.entity_ties.specs.declared.cells.Member.{Member};

use crate::cells::{Member, MemberList, number_entities};
use crate::chosen::{chosen_entities, places_of};
use crate::labels::part_labels;
use crate::lists::{labels_by_relation, members_by_label};
use currency_base::{EntId, ItemList, NoMemory, RelId};
use entity_lists::EntityLists;
use flat_lists::FlatLists;
use part_places::Places;
use spec_model::{Relation, Specification};
use std::alloc::Global;
use std::marker::Model;

/// The smallest parts of a specification that are closed under copied rows: two entities are of one part just where a chain of
/// copied rows leads from one to the other. Contracts see, for each relation, the part of each of its entities, how many parts
/// there are, and the rows of each entity. An entity takes sixteen bytes or more, a part 24 and a row twelve.
#[derive(Drop)]
pub struct Ties {
    // by relation, the part of each of its entities
    labels: FlatLists<u32>,
    // by part, its entities
    parts: ItemList<MemberList>,
    // by relation, the rows of each of its entities
    groups: Vec<EntityLists>,
}

impl Model for Ties {
    ghost use Rattle.std.specs.Prelude.{length};
    ghost use Rattle.entity_ties.specs.Labels.{Labelling};
    ghost use Rattle.entity_ties.specs.Parts.{AreHeld};

    ghost Value = { Labelling };

    ghost view = { λ t. record { labels = t.labels; count = length t.parts; groups = t.groups.items } };

    ghost invariant = { λ t. AreHeld t.labels t.parts };
}

impl Ties {
    /// Finds the smallest parts of a specification. They count from 0 on in the order of their first entities: by relation,
    /// then entity. Takes time in proportion to the rows and entities, and to the entities times a logarithm of their number. It
    /// is refused for want of memory, which also comes where there are 2^32 entities or more.
    pub fn new(alloc: Global, spec: &Specification) -> Result<Ties, NoMemory>
        ensures { IfOk result (AreTies spec.now) }
    {
        let relations = spec.relations();
        let numbering = number_entities(alloc, relations)?;
        let ordered = part_labels(alloc, spec, &numbering)?;
        let labels = labels_by_relation(alloc, relations, &numbering.firsts, &ordered.labels)?;
        let parts = members_by_label(alloc, &numbering.members, &ordered.labels, ordered.count)?;
        let groups = group_rows(alloc, relations)?;
        Ok(Ties {
            labels,
            parts,
            groups,
        })
    }

    /// How many parts there are.
    pub fn count(&self) -> usize
        ensures { result ≡ self.now.count }
    {
        self.parts.len()
    }

    /// The part of an entity.
    pub fn part_of(&self, rel: RelId, ent: EntId) -> u32
        requires rel { rel.0 < length self.now.labels }
        requires ent { ent.0 < length (labels_in self.now rel.0) }
        ensures { label_of self.now (cell rel.0 ent.0) ≡ Some result }
    {
        self.labels.get(rel.0 as usize)[ent.0 as usize]
    }

    /// The entities of a part, in no order that is told.
    pub fn members(&self, part: u32) -> &[Member]
        requires { part < self.now.count }
        ensures { (m : Member) → Contains result.now m ↔ (label_of self.now (cell m.rel.0 m.ent.0) ≡ Some part) }
    {
        self.parts.get(part as usize).as_slice()
    }

    /// The places of some of the parts: their entities and the rows of these, by relation, in order and each once. Parts may
    /// come in any order, and more than once. Takes time in proportion to the relations, and to what it gives times a logarithm.
    /// It is refused for want of memory alone.
    pub fn places(
        &self,
        alloc: Global,
        spec: &Specification,
        parts: &[u32],
    ) -> Result<Places, NoMemory>
        requires ties { AreTies spec.now self.now }
        requires parts { All (λ part. part < self.now.count) parts.now }
        ensures places { IfOk result (ArePlacesOf spec.now.relations (scope_of self.now parts.now)) }
        ensures closed { IsClosed spec.now (scope_of self.now parts.now) }
    {
        chosen_places(alloc, spec, &self.labels, &self.parts, &self.groups, parts)
    }
}

// The places of some of the parts.
fn chosen_places(
    alloc: Global,
    spec: &Specification,
    labels: &FlatLists<u32>,
    parts: &ItemList<MemberList>,
    groups: &[EntityLists],
    chosen: &[u32],
) -> Result<Places, NoMemory>
    requires held { AreHeld labels.now parts.now }
    requires ties { AreTies spec.now (labelling labels.now (length parts.now) groups.now) }
    requires chosen { All (λ part. part < length parts.now) chosen.now }
    ensures places { IfOk result (ArePlacesOf spec.now.relations
        (scope_of (labelling labels.now (length parts.now) groups.now) chosen.now)) }
    ensures closed { IsClosed spec.now (scope_of (labelling labels.now (length parts.now) groups.now) chosen.now) }
{
    let _relations = spec.relations();
    let _labels = labels.len();
    let found = chosen_entities(alloc, groups.len(), parts, chosen)?;
    places_of(alloc, groups, &found)
}

// The rows of each entity of each relation.
fn group_rows(alloc: Global, relations: &[Relation]) -> Result<Vec<EntityLists>, NoMemory>
    requires { AreRelations relations.now }
    ensures { IfOk result (λ groups. groups.items ≡ map grouping_of relations.now) }
{
    let mut groups = Vec::new(alloc);
    for relation in relations {
        let rows = relation.rows.as_slice();
        groups.push(EntityLists::new(alloc, rows, relation.entities.len())?)?;
    }
    Ok(groups)
}
