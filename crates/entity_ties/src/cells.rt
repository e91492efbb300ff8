ghost use Rattle.std.specs.Prelude.{◌≡◌, ◌<◌, ◌≤◌, ◌+◌, ◌^◌, length, IfOk, OnOk};
ghost use Rattle.spec_model.specs.Facts.{AreRelations};
ghost use Rattle.entity_ties.specs.Numbers.{AddsMembers, AreNumbered};

use currency_base::{EntId, ItemList, NoMemory, RelId};
use spec_model::Relation;
use std::alloc::Global;

/// An entity of a relation.
#[derive(Clone, Copy)]
pub struct Member {
    pub rel: RelId,
    pub ent: EntId,
}

/// Entities of relations.
pub(crate) type MemberList = ItemList<Member>;

/// The entities of all relations, numbered one after another.
#[derive(Drop)]
pub(crate) struct Numbering {
    /// By relation, the number of its first entity.
    pub firsts: Vec<u32>,
    /// By number, the entity.
    pub members: Vec<Member>,
}

/// Numbers the entities of all relations. It is refused where there are 2^32 or more.
pub(crate) fn number_entities(alloc: Global, relations: &[Relation]) -> Result<Numbering, NoMemory>
    requires { AreRelations relations.now }
    ensures numbers { IfOk result (λ n. AreNumbered relations.now (length relations.now) n.firsts.items n.members.items) }
    ensures few { IfOk result (λ n. length n.members.items < 2 ^ 32) }
{
    let mut firsts = Vec::new(alloc);
    let mut members = Vec::new(alloc);
    for rel in 0..relations.len() {
        firsts.push(number_of(members.len())?)?;
        let entities = relations[rel].entities.len();
        add_members(&mut members, RelId(rel as u32), entities)?;
    }
    let _ = number_of(members.len())?;
    Ok(Numbering { firsts, members })
}

// A place as a number of 32 bits.
fn number_of(place: usize) -> Result<u32, NoMemory>
    ensures value { IfOk result (λ number. number ≡ place) }
    ensures few { OnOk result (place < 2 ^ 32) }
{
    if place > u32::MAX as usize {
        return Err(NoMemory);
    }
    Ok(place as u32)
}

// Puts so many entities of a relation after the others.
fn add_members(members: &mut Vec<Member>, rel: RelId, count: usize) -> Result<(), NoMemory>
    requires { count < 2 ^ 32 }
    ensures { OnOk result (AddsMembers rel.0 count members.old.items members.new.items) }
{
    for ent in 0..count {
        members.push(Member {
            rel,
            ent: EntId(ent as u32),
        })?;
    }
    Ok(())
}
