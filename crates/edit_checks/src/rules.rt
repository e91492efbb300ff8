// A look at one more rule.

ghost use Rattle.std.specs.Prelude.{◌≡◌, ◌≤◌, true, length};
ghost use Rattle.edit_checks.specs.Stays.{StaysConsistent};
ghost use Rattle.spec_edits.specs.Edits.{IsNewRule};
ghost use Rattle.spec_model.specs.Consistent.{IsConsistent};

use completion_check::satisfies_rule;
use denial_rules::{MOST_PREDICATES, MOST_VARS};
use spec_edits::Edit;
use spec_model::{Completion, Rule, Specification};
use std::alloc::Global;

/// Does a consistent completion satisfy a rule that is added? `false` says nothing: it is the answer too where the rule is
/// too long, or memory runs out.
pub(crate) fn keeps_rule(
    alloc: Global,
    spec: &Specification,
    rule: &Rule,
    completion: &Completion,
) -> bool
    requires new { IsNewRule spec.now rule.now }
    requires consistent { IsConsistent spec.now completion.now }
    ensures { result ≡ true → StaysConsistent spec.now (Edit.AddRule rule.now) completion.now }
{
    if !is_short(rule) {
        return false;
    }
    match satisfies_rule(alloc, spec, rule, completion) {
        Ok(held) => held,
        Err(_) => false,
    }
}

/// Has a rule no more variables and predicates than a rule may have?
fn is_short(rule: &Rule) -> bool
    ensures vars { result ≡ true → rule.now.vars ≤ 4 }
    ensures predicates { result ≡ true → length rule.now.predicates ≤ 16 }
{
    rule.vars as usize <= MOST_VARS && rule.predicates.len() <= MOST_PREDICATES
}
