// Counting the instances of a specification, up to a bound.

ghost use Rattle.std.specs.Prelude.{◌≡◌, ◌*◌, ◌^◌, length, All, IfOk};
ghost use Rattle.std.specs.List.{sum_by};
ghost use Rattle.spec_model.specs.Facts.{IsRelation};
ghost use Rattle.spec_limits.specs.Instances.{instances, order_instances, rule_instances, too_many_instances, two_for_each_three};
ghost use Rattle.spec_limits.specs.Left.{left_of, AreEntityLists};

use crate::copies::left_by_copies;
use crate::left::{left_after, two_for_each_three};
use currency_base::{ItemList, NoMemory, RowList};
use entity_rows::{EntityRows, entity_rows};
use spec_model::{Relation, Specification};
use std::alloc::Global;

/// How many instances a specification may have.
const MOST_INSTANCES: u32 = 8000000;

/// The rows of each entity, relation by relation.
pub type EntityLists = ItemList<EntityRows>;

/// The limit that a specification exceeds by its instances: those of its rules and copy functions, and
/// for the order of each attribute and entity two for each three rows. Takes time in proportion to the
/// rows for each rule, and at most 64 times that for each copy function of a specification within limit
/// 7.
pub fn limit_of_instances(alloc: Global, spec: &Specification) -> Result<Option<u8>, NoMemory>
    ensures { IfOk result (λ k. k ≡ too_many_instances spec.now) }
{
    let lists = entity_lists(alloc, spec.relations())?;
    match left_by_all(spec, &lists) {
        Some(_) => Ok(None),
        None => Ok(Some(11)),
    }
}

/// The rows of each entity of these relations. Takes time in proportion to the rows and entities.
pub fn entity_lists(alloc: Global, relations: &[Relation]) -> Result<EntityLists, NoMemory>
    requires { All IsRelation relations.now }
    ensures { IfOk result (AreEntityLists relations.now) }
{
    let mut lists = EntityLists::new(alloc);
    for relation in relations {
        lists.push(entity_rows(alloc, relation)?)?;
    }
    Ok(lists)
}

/// What all instances leave of the bound. The lists are those of `entity_lists`.
pub fn left_by_all(spec: &Specification, lists: &EntityLists) -> Option<u32>
    requires { AreEntityLists spec.now.relations lists.now }
    ensures { result ≡ left_of 8000000 (instances spec.now) }
{
    let left = left_by_rules(MOST_INSTANCES, spec, lists)?;
    let left = left_by_copies(left, spec, lists)?;
    left_by_orders(left, spec, lists)
}

/// What the instances of rules leave of a bound.
fn left_by_rules(mut left: u32, spec: &Specification, lists: &EntityLists) -> Option<u32>
    requires { AreEntityLists spec.now.relations lists.now }
    ensures { result ≡ left_of left (sum_by (rule_instances spec.now.relations) spec.now.rules) }
{
    for rule in spec.rules() {
        let entities = lists.get(rule.relation.0 as usize);
        let Some(rest) = left_by_rule(left, rule.vars, entities.as_slice()) else {
            return None;
        };
        left = rest;
    }
    Some(left)
}

/// What the instances of a rule of so many variables leave of a bound; the lists are those of the entities of its
/// relation.
pub fn left_by_rule(mut left: u32, vars: u32, entities: &[RowList]) -> Option<u32>
    ensures { result ≡ left_of left (sum_by (λ rows. length rows ^ vars) entities.now) }
{
    for rows in entities {
        // A power that is too large for 64 bits is above the bound too.
        let choices = (rows.len() as u64).saturating_pow(vars);
        let Some(rest) = left_after(left, choices) else {
            return None;
        };
        left = rest;
    }
    Some(left)
}

/// What the instances of the orders of all relations leave of a bound.
fn left_by_orders(mut left: u32, spec: &Specification, lists: &EntityLists) -> Option<u32>
    requires { AreEntityLists spec.now.relations lists.now }
    ensures { result ≡ left_of left (sum_by order_instances spec.now.relations) }
{
    for (rel, relation) in spec.relations().iter().enumerate() {
        let entities = lists.get(rel);
        let attrs = relation.attrs.len() as u64;
        let Some(rest) = left_by_relation(left, attrs, entities.as_slice()) else {
            return None;
        };
        left = rest;
    }
    Some(left)
}

/// What the instances of the orders of so many attributes leave of a bound.
fn left_by_relation(mut left: u32, attrs: u64, entities: &[RowList]) -> Option<u32>
    ensures { result ≡ left_of left (sum_by (λ rows. attrs * two_for_each_three (length rows)) entities.now) }
{
    for rows in entities {
        let of_entity = two_for_each_three(rows.len() as u64).saturating_mul(attrs);
        let Some(rest) = left_after(left, of_entity) else {
            return None;
        };
        left = rest;
    }
    Some(left)
}
