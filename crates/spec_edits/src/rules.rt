// Rules that are added and withdrawn.

ghost use Rattle.std.specs.Prelude.{◌≡◌, ◌<◌, ◌^◌, ◌∷◌, ◌++◌, [], Ok, IfErr, IfOk, OnErr, OnOk, length};
ghost use Rattle.std.specs.List.{sum_by};
ghost use Rattle.spec_model.specs.Facts.{AreRules};
ghost use Rattle.spec_edits.specs.Counted.{IsCounted};
ghost use Rattle.spec_edits.specs.Edits.{IsNewRule, IsRefused, edited, with_rule, without_rule};

use crate::{Edit, EditFault};
use currency_base::{RowList, RuleId};
use spec_limits::{EntityLists, left_by_rule, limit_with_rule};
use spec_model::{Rule, Specification};

/// Adds a rule after the others, unless a limit is then exceeded, and answers what the instances then leave of their bound. A
/// refusal changes nothing.
pub(crate) fn add_rule(
    spec: &mut Specification,
    lists: &EntityLists,
    left: u32,
    rule: Rule,
) -> Result<u32, EditFault>
    requires counted { IsCounted spec.old lists.now left }
    requires new { IsNewRule spec.old rule }
    ensures ok { OnOk result (edited spec.old (Edit.AddRule rule) ≡ Ok spec.new) }
    ensures counted { IfOk result (IsCounted spec.new lists.now) }
    ensures due { IfErr result (IsRefused spec.old (Edit.AddRule rule)) }
    ensures err { OnErr result (spec.new ≡ spec.old) }
{
    let rest = left_with_rule(spec, lists, left, &rule)?;
    spec.add_rule(rule)?;
    Ok(rest)
}

/// What the instances leave of their bound with one more rule, unless a limit is then exceeded.
fn left_with_rule(
    spec: &Specification,
    lists: &EntityLists,
    left: u32,
    rule: &Rule,
) -> Result<u32, EditFault>
    requires counted { IsCounted spec.now lists.now left }
    requires new { IsNewRule spec.now rule.now }
    ensures counted { IfOk result (IsCounted (with_rule spec.now rule.now) lists.now) }
    ensures rules { OnOk result (AreRules spec.now.relations (spec.now.rules ++ rule.now ∷ [])) }
    ensures due { IfErr result (IsRefused spec.now (Edit.AddRule rule.now)) }
{
    if let Some(limit) = limit_with_rule(spec, rule) {
        return Err(EditFault::Limit(limit));
    }
    are_rules(spec);
    let entities = lists.get(rule.relation.0 as usize).as_slice();
    match left_by_rule(left, rule.vars, entities) {
        Some(rest) => Ok(rest),
        None => Err(EditFault::Limit(11)),
    }
}

/// A law: what the rules of every specification keep.
fn are_rules(spec: &Specification)
    ensures { AreRules spec.now.relations spec.now.rules }
{
    let _ = spec.rules();
}

/// Takes a rule out, and answers what the instances then leave of their bound. Takes no memory.
pub(crate) fn withdraw_rule(
    spec: &mut Specification,
    lists: &EntityLists,
    left: u32,
    rule: RuleId,
) -> u32
    requires counted { IsCounted spec.old lists.now left }
    requires there { rule.0 < length spec.old.rules }
    ensures ok { edited spec.old (Edit.WithdrawRule rule) ≡ Ok spec.new }
    ensures counted { IsCounted spec.new lists.now result }
{
    let rest = left_without_rule(spec, lists, left, rule);
    let _ = spec.withdraw_rule(rule);
    rest
}

/// What the instances leave of their bound with one rule less.
fn left_without_rule(spec: &Specification, lists: &EntityLists, left: u32, rule: RuleId) -> u32
    requires counted { IsCounted spec.now lists.now left }
    requires there { rule.0 < length spec.now.rules }
    ensures { IsCounted (without_rule spec.now rule.0) lists.now result }
{
    let rule = &spec.rules()[rule.0 as usize];
    let entities = lists.get(rule.relation.0 as usize).as_slice();
    left + rule_instances(rule.vars, entities)
}

/// How many instances a rule of so many variables has, where 32 bits hold that; the lists are those of the entities of its
/// relation.
fn rule_instances(vars: u32, entities: &[RowList]) -> u32
    requires { sum_by (λ rows. length rows ^ vars) entities.now < 2 ^ 32 }
    ensures { result ≡ sum_by (λ rows. length rows ^ vars) entities.now }
{
    let left = left_by_rule(u32::MAX, vars, entities).unwrap();
    u32::MAX - left
}
