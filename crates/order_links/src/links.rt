ghost use Rattle.std.specs.Prelude.{◌≡◌, true, All, IfOk, OnOk};
ghost use Rattle.order_links.specs.Lists.{IsListOf};

use crate::list::{ListId, ListIdList};
use crate::ways::{Column, Way, Ways};
use currency_base::{EntId, NoMemory};
use spec_model::{Relation, Specification};
use std::alloc::Global;
use std::marker::Model;

/// Which lists of a specification are linked. Contracts see the relations.
///
/// Two lists of one entity, in two attributes of a relation, are linked where a rule on that relation speaks of both
/// attributes in order predicates or in its conclusion. A list of a copy function's target relation and one of its source
/// relation are linked where some place of the copy function has their attributes, and some row of the first one's entity is
/// mapped to a row of the second one's. A mapped row takes sixteen bytes.
#[derive(Drop)]
pub struct Links<'a> {
    alloc: Global,
    relations: &'a [Relation],
    ways: Ways,
}

impl<'a> Model for Links<'a> {
    ghost use Rattle.std.specs.Prelude.{List};
    ghost use Rattle.spec_model.specs.declared.relation.Relation.{Relation};

    ghost Value = { List Relation };

    ghost view = { λ l. l.relations.now };
}

impl<'a> Links<'a> {
    /// The links of a specification. Takes time in proportion to the rules and to the rows of each copy function's target
    /// relation, and some more to sort what is mapped.
    pub fn new(alloc: Global, spec: &'a Specification) -> Result<Links<'a>, NoMemory>
        ensures { IfOk result (λ links. links ≡ spec.now.relations) }
    {
        let ways = ways_of(alloc, spec)?;
        Ok(Links {
            alloc,
            relations: spec.relations(),
            ways,
        })
    }

    /// The lists that a list is linked with, over any number of links, itself first, in the order in which they are met, up to so
    /// many. Takes time in proportion to their links, to the places of copy functions at their attributes, each found by halving,
    /// and to the square of their number.
    ///
    /// That all that is answered are lists of the specification is proved; which ones they are is tested.
    pub fn near(&self, list: ListId, most: usize) -> Result<ListIdList, NoMemory>
        requires { IsListOf self.now list }
        ensures lists { IfOk result (All (IsListOf self.now)) }
    {
        let mut near = ListIdList::new(self.alloc);
        near.push(list)?;
        near_all(&self.ways, self.relations, &mut near, most)?;
        Ok(near)
    }
}

// The ways between the columns of a specification.
fn ways_of(alloc: Global, spec: &Specification) -> Result<Ways, NoMemory> {
    let mut ways = Ways::new(alloc);
    add_ways(alloc, &mut ways, spec)?;
    ways.order();
    Ok(ways)
}

// Adds them.
fn add_ways(alloc: Global, ways: &mut Ways, spec: &Specification) -> Result<(), NoMemory> {
    for rule in spec.rules() {
        ways.add_rule(rule)?;
    }
    for copy in spec.copies() {
        ways.add_copy(alloc, copy, spec.relations())?;
    }
    Ok(())
}

// Puts the lists that those near are linked with after them, over any number of links, up to so many.
fn near_all(
    ways: &Ways,
    relations: &[Relation],
    near: &mut ListIdList,
    most: usize,
) -> Result<(), NoMemory>
    requires { All (IsListOf relations.now) near.old }
    ensures { OnOk result (All (IsListOf relations.now) near.new) }
{
    for place in 0..most {
        let Some(next) = near.as_slice().get(place).copied() else {
            break;
        };
        near_linked(ways, relations, near, next, most)?;
    }
    Ok(())
}

// Puts the lists that a list is linked with after those that are near, up to so many.
fn near_linked(
    ways: &Ways,
    relations: &[Relation],
    near: &mut ListIdList,
    list: ListId,
    most: usize,
) -> Result<(), NoMemory>
    requires { All (IsListOf relations.now) near.old }
    ensures { OnOk result (All (IsListOf relations.now) near.new) }
{
    let from = Column {
        rel: list.rel,
        attr: list.attr,
    };
    for way in ways.of(from) {
        near_over(ways, relations, near, way, list.ent, most)?;
    }
    Ok(())
}

// Puts the lists that a way leads to from an entity after those that are near, up to so many.
fn near_over(
    ways: &Ways,
    relations: &[Relation],
    near: &mut ListIdList,
    way: &Way,
    ent: EntId,
    most: usize,
) -> Result<(), NoMemory>
    requires { All (IsListOf relations.now) near.old }
    ensures { OnOk result (All (IsListOf relations.now) near.new) }
{
    let Some(number) = way.over else {
        return put_near(relations, near, way.to.list(ent), most);
    };
    let Some(ties) = ways.ties(number, ent) else {
        return Ok(());
    };
    for tie in ties {
        if near.len() >= most {
            break;
        }
        put_near(relations, near, way.to.list(tie.to), most)?;
    }
    Ok(())
}

// Puts a list after those that are near, unless it is among them or there are so many.
fn put_near(
    relations: &[Relation],
    near: &mut ListIdList,
    list: ListId,
    most: usize,
) -> Result<(), NoMemory>
    requires { All (IsListOf relations.now) near.old }
    ensures { OnOk result (All (IsListOf relations.now) near.new) }
{
    if near.len() < most && is_list(relations, list) && !near.as_slice().contains(&list) {
        near.push(list)?;
    }
    Ok(())
}

// Is there such a list?
fn is_list(relations: &[Relation], list: ListId) -> bool
    ensures { result ≡ true → IsListOf relations.now list }
{
    match relations.get(list.rel.0 as usize) {
        Some(relation) => {
            (list.attr.0 as usize) < relation.attrs.len()
                && (list.ent.0 as usize) < relation.entities.len()
        }
        None => false,
    }
}
