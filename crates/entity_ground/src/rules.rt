ghost use Rattle.std.specs.Prelude.{◌≡◌, IfOk, map};
ghost use Rattle.std.specs.List.{AllZip};
ghost use Rattle.denial_rules.specs.Rules.{IsRuleOn};
ghost use Rattle.spec_model.specs.Facts.{IsRelation, AreRelations, IsRuleOf, AreRules, kinds_of};
ghost use Rattle.entity_ground.specs.Grounds.{grounds_of};
ghost use Rattle.entity_ground.specs.Parts.{grouping_of, AreListed};

use crate::relations::{lists_at, relation_at};
use crate::search::add_grounds;
use currency_base::{EntId, ItemList, NoMemory, RowId};
use entity_lists::EntityLists;
use flat_lists::FlatLists;
use spec_model::{Relation, Rule};
use std::alloc::Global;

/// For each rule its grounds.
pub(crate) fn rule_grounds(
    alloc: Global,
    relations: &[Relation],
    lists: &[EntityLists],
    rules: &[Rule],
) -> Result<ItemList<FlatLists<RowId>>, NoMemory>
    requires relations { AreRelations relations.now }
    requires lists { lists.now ≡ map grouping_of relations.now }
    requires rules { AreRules relations.now rules.now }
    ensures { IfOk result (AllZip (AreListed relations.now) rules.now) }
{
    let mut all = ItemList::new(alloc);
    for rule in rules {
        let grounds = match grounds_of_rule(alloc, relations, lists, rule) {
            Ok(grounds) => grounds,
            Err(NoMemory) => return Err(NoMemory),
        };
        let Ok(()) = all.push(grounds) else {
            return Err(NoMemory);
        };
    }
    Ok(all)
}

// The grounds of a rule on one of the relations.
fn grounds_of_rule(
    alloc: Global,
    relations: &[Relation],
    lists: &[EntityLists],
    rule: &Rule,
) -> Result<FlatLists<RowId>, NoMemory>
    requires relations { AreRelations relations.now }
    requires lists { lists.now ≡ map grouping_of relations.now }
    requires rule { IsRuleOf relations.now rule.now }
    ensures { IfOk result (AreListed relations.now rule.now) }
{
    let relation = relation_at(relations, rule.relation);
    let own = lists_at(lists, rule.relation);
    grounds_in(alloc, rule, relation, own)
}

// The grounds of a rule on this relation, entity by entity.
fn grounds_in(
    alloc: Global,
    rule: &Rule,
    relation: &Relation,
    lists: &EntityLists,
) -> Result<FlatLists<RowId>, NoMemory>
    requires relation { IsRelation relation.now }
    requires rule { IsRuleOn (kinds_of relation.now) rule.now }
    requires lists { lists.now ≡ grouping_of relation.now }
    ensures { IfOk result (λ grounds. grounds ≡ grounds_of rule.now relation.now) }
{
    let mut grounds = FlatLists::new(alloc);
    let entities = lists.entities();
    for ent in 0..entities {
        let members = lists.of_entity(EntId(ent as u32));
        let Ok(()) = add_grounds(alloc, rule, relation, members, &mut grounds) else {
            return Err(NoMemory);
        };
    }
    Ok(grounds)
}
