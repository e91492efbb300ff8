ghost use Rattle.std.specs.Prelude.{◌≡◌, ◌<◌, ◌≤◌, [], ◌∷◌, length, map, Contains, IfOk};
ghost use Rattle.bind_faults.specs.Faults.{IsDue, IsReadFault, or_else};
ghost use Rattle.denial_rules.specs.Rules.{IsRuleOn};
ghost use Rattle.spec_model.specs.Facts.{IsRuleOf, kinds_of};
ghost use Rattle.spec_names.specs.Names.{all_names_of};
ghost use Rattle.rule_bind.specs.Ruled.{names_of_attrs, refused_later, repeated, ruled, ruled_on, taken};

use crate::kinds::first_mismatch;
use crate::resolve::{conclusion_of, predicates_of};
use crate::variables::{Variables, or_else};
use bind_faults::{BindFault, find};
use currency_base::{ErrorCode, RelId};
use name_index::NameIndex;
use rule_syntax::RuleTree;
use spec_model::{Relation, Rule, Specification};
use spec_names::SpecNames;
use std::alloc::Global;
use text_grammar::Named;

/// The rule that a tree says of a specification, or its first fault: names that are unknown, then names
/// that stand twice, then comparisons of two kinds, each in the order of the text.
pub fn bind_rule(
    alloc: Global,
    names: &SpecNames,
    spec: &Specification,
    tree: &RuleTree,
) -> Result<Rule, BindFault>
    requires { names.now ≡ all_names_of spec.now }
    ensures due { IsDue (ruled spec.now tree.now) result }
    ensures fits { IfOk result (λ rule. rule.vars ≤ 4 → length rule.predicates ≤ 16 → IsRuleOf spec.now.relations rule) }
    ensures fresh { IfOk result (λ rule. Contains (map (λ r. r.name) spec.now.rules) rule.name → ⊥) }
    ensures reads { IsReadFault result → ⊥ }
{
    match bind_named(alloc, names, spec, tree) {
        Ok(rule) => Ok(rule),
        Err(fault) => Err(fault),
    }
}

/// The same.
fn bind_named(
    alloc: Global,
    names: &SpecNames,
    spec: &Specification,
    tree: &RuleTree,
) -> Result<Rule, BindFault>
    requires { names.now ≡ all_names_of spec.now }
    ensures due { IsDue (ruled spec.now tree.now) result }
    ensures fits { IfOk result (λ rule. rule.vars ≤ 4 → length rule.predicates ≤ 16 → IsRuleOf spec.now.relations rule) }
    ensures fresh { IfOk result (λ rule. Contains (map (λ r. r.name) spec.now.rules) rule.name → ⊥) }
{
    let rel = find(names.relations(), &tree.relation, ErrorCode::UnknownName)?;
    let relation = &spec.relations()[rel];
    let place = Place {
        rel: RelId(rel as u32),
        relation,
        attrs: &names.relation(rel).attrs,
    };
    bind_at(alloc, &place, names.rules(), tree)
}

/// A relation of a specification, with its id and the names of its attributes.
#[derive(Drop)]
struct Place<'a> {
    rel: RelId,
    relation: &'a Relation,
    attrs: &'a NameIndex,
}

/// The rule that a tree says of a relation, or its first fault; earlier rules have these names.
fn bind_at(
    alloc: Global,
    place: &Place,
    rules: &NameIndex,
    tree: &RuleTree,
) -> Result<Rule, BindFault>
    requires attrs { place.now.attrs.now ≡ names_of_attrs place.now.relation.now }
    requires few { length place.now.attrs.now < 4294967296 }
    ensures due { IsDue (ruled_on rules.now place.now.rel.0 place.now.relation.now tree.now) result }
    ensures of { IfOk result (λ rule. rule.relation ≡ place.now.rel) }
    ensures fits { IfOk result (λ rule. rule.vars ≤ 4 → length rule.predicates ≤ 16
        → IsRuleOn (kinds_of place.now.relation.now) rule) }
    ensures fresh { IfOk result (λ rule. Contains rules.now rule.name → ⊥) }
{
    // No text spells a rule with no variable, and none has room for 2^32 of them.
    if tree.vars.len() == 0 || tree.vars.len() > u32::MAX as usize {
        return Err(BindFault::NoMemory);
    }
    let Variables { names, repeated } = Variables::of(alloc, tree.vars.as_slice())?;
    let predicates = predicates_of(alloc, &names, place.attrs, tree.predicates.as_slice())?;
    let conclusion = conclusion_of(&names, place.attrs, &tree.conclusion)?;
    match refused_later(place, rules, tree, repeated) {
        Some(fault) => Err(fault),
        None => Ok(Rule {
            name: tree.name.name.duplicate(alloc)?,
            relation: place.rel,
            vars: tree.vars.len() as u32,
            predicates,
            conclusion,
        }),
    }
}

/// What is refused once every name is known; `twice` is the refusal of the first variable that is
/// listed twice.
fn refused_later(
    place: &Place,
    rules: &NameIndex,
    tree: &RuleTree,
    twice: Option<BindFault>,
) -> Option<BindFault>
    requires attrs { place.now.attrs.now ≡ names_of_attrs place.now.relation.now }
    requires twice { twice ≡ repeated [] tree.now.vars }
    ensures { result ≡ refused_later rules.now place.now.relation.now tree.now }
{
    let mismatch = first_mismatch(place.attrs, place.relation, tree.predicates.as_slice());
    or_else(taken(rules, &tree.name), or_else(twice, mismatch))
}

/// The refusal of a name that is one of these.
fn taken(names: &NameIndex, named: &Named) -> Option<BindFault>
    ensures { result ≡ taken names.now named.now }
{
    match names.find(&named.name) {
        Some(_) => Some(BindFault::at(ErrorCode::DuplicateName, named)),
        None => None,
    }
}
