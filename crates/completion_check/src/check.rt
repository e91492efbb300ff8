ghost use Rattle.std.specs.Prelude.{◌≡◌, ◌≤◌, List, length, OnOk, IfErr};
ghost use Rattle.spec_model.specs.Spec.{Spec};
ghost use Rattle.spec_model.specs.declared.flaw.Flaw.{Flaw};
ghost use Rattle.spec_model.specs.Facts.{AreRelations, AreRules};
ghost use Rattle.spec_model.specs.Completion.{Rankings, HasShape, IsCompletion};
ghost use Rattle.spec_model.specs.Consistent.{IsConsistent};
ghost use Rattle.spec_model.specs.FirstFlaw.{IsFirstFlaw};
ghost use Rattle.completion_check.specs.Room.{HasRoom, HasAllPlaces, HasMembers};
ghost use Rattle.completion_check.specs.Breaks.{NoRuleBreaks};
ghost use Rattle.completion_check.specs.Flaws.{AreMarkedIn, AreAllInOrder, IsUnrankedFlaw, IsPairFlaw, IsRuleFlaw};

use crate::CheckScratch;
use crate::broken::broken_rows;
use crate::copies::check_copies;
use crate::relations::RelationPlaces;
use currency_base::{RelId, RuleId};
use entity_rows::EntityRows;
use spec_model::{Completion, Flaw, Relation, Rule, Specification};
use std::alloc::Global;

/// Is the completion consistent? If not, the answer is what it fails first: rankings before given pairs,
/// these before rules, and these before copy functions, each in their order. Takes no memory. It takes
/// time in proportion to the completion's lists and the given pairs, for a rule to the choices of rows of
/// one entity up to the first predicate that fails, and for each place of a copy function to the target's
/// rows and the pairs of a mapped row and a row of its entity.
pub fn check_completion(
    spec: &Specification,
    completion: &Completion,
    scratch: &mut CheckScratch,
) -> Result<(), Flaw>
    requires shape { HasShape spec.now.relations completion.now }
    requires room { HasRoom spec.now.relations scratch.old }
    ensures consistent { OnOk result (IsConsistent spec.now completion.now) }
    ensures flaw { IfErr result (IsFirstFlaw spec.now completion.now) }
    ensures room_stays { HasRoom spec.now.relations scratch.new }
{
    let relations = spec.relations();
    check_rankings(relations, completion, &mut scratch.places)?;
    let places = scratch.places.as_slice();
    if let Err(flaw) = check_given(relations, places) {
        return Err(flaw);
    }
    let members = scratch.members.as_slice();
    if let Err(flaw) = check_rules(scratch.alloc, relations, spec.rules(), places, members) {
        return Err(flaw);
    }
    check_copies(relations, spec.copies(), places, members)
}

// Is each list a ranking? Writes the places of the rows.
fn check_rankings(
    relations: &[Relation],
    completion: &Completion,
    places: &mut Vec<RelationPlaces>,
) -> Result<(), Flaw>
    requires facts { AreRelations relations.now }
    requires shape { HasShape relations.now completion.now }
    requires room { HasAllPlaces relations.now places.old.items }
    ensures room_stays { HasAllPlaces relations.now places.new.items }
    ensures ok { OnOk result (IsCompletion relations.now completion.now) }
    ensures marked { OnOk result (AreMarkedIn relations.now completion.now places.new.items) }
    ensures err { IfErr result (IsUnrankedFlaw relations.now completion.now) }
{
    for (at, relation) in relations.iter().enumerate() {
        let rel = RelId(at as u32);
        let rankings = completion.relation(rel).as_slice();
        if let Some(list) = places[at].mark(relation, rankings) {
            return Err(Flaw::NotARanking {
                rel,
                attr: list.attr,
                ent: list.ent,
            });
        }
    }
    Ok(())
}

// Is each given pair kept?
fn check_given(relations: &[Relation], places: &[RelationPlaces]) -> Result<(), Flaw>
    requires facts { AreRelations relations.now }
    requires room { HasAllPlaces relations.now places.now }
    ensures ok { OnOk result (AreAllInOrder relations.now places.now) }
    ensures err { IfErr result (IsPairFlaw relations.now places.now) }
{
    for (at, relation) in relations.iter().enumerate() {
        if let Some(pair) = places[at].broken(relation) {
            let rel = RelId(at as u32);
            return Err(Flaw::GivenBroken { rel, pair });
        }
    }
    Ok(())
}

// Is each rule satisfied?
fn check_rules(
    alloc: Global,
    relations: &[Relation],
    rules: &[Rule],
    places: &[RelationPlaces],
    members: &[EntityRows],
) -> Result<(), Flaw>
    requires relations { AreRelations relations.now }
    requires rules { AreRules relations.now rules.now }
    requires places { HasAllPlaces relations.now places.now }
    requires members { HasMembers relations.now members.now }
    ensures ok { OnOk result (NoRuleBreaks relations.now rules.now places.now) }
    ensures err { IfErr result (IsRuleFlaw relations.now rules.now places.now) }
{
    for (at, rule) in rules.iter().enumerate() {
        let rel = rule.relation.0 as usize;
        let own = members[rel].as_slice();
        if let Some(rows) = broken_rows(alloc, rule, &relations[rel], &places[rel], own) {
            let rule = RuleId(at as u32);
            return Err(Flaw::RuleBroken { rule, rows });
        }
    }
    Ok(())
}

/// A law: no completion with a flaw is consistent.
pub fn flaw_rules_out()
    ensures { (s : Spec) → (c : Rankings) → (flaw : Flaw) → IsFirstFlaw s c flaw → IsConsistent s c → ⊥ }
{}

/// A law: a completion has at most one first flaw, so the answer of [`check_completion`] is determined.
pub fn first_flaw_is_one()
    ensures { (s : Spec) → (c : Rankings) → (flaw other : Flaw) → IsFirstFlaw s c flaw → IsFirstFlaw s c other → flaw ≡ other }
{}
