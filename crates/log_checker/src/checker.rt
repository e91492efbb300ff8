ghost use Rattle.std.specs.Prelude.{◌≡◌, ◌⊎◌, ◌*◌, false, length, option_map, replicate, IfOk, IfErr};
ghost use Rattle.refutation_log.specs.Steps.{clauses_of};
ghost use Rattle.log_checker.specs.Accepted.{AreAccepted, FailsFirst, IsAccepted, IsFirstFault};
ghost use Rattle.refutation_log.specs.Numbered.{IsNumbered};
ghost use Rattle.log_checker.specs.Shown.{IsShownBy};
ghost use Rattle.log_checker.specs.declared.fault.LogFault.TheVariants as fault;

use crate::judge::judge;
use crate::{Checked, LogFault};
use log_axioms::Axioms;
use log_replay::Replay;
use query_model::Query;
use refutation_log::{Log, Statement, Steps};
use spec_model::Specification;
use std::alloc::Global;

/// Checks a log over a specification and a query, if one is asked: it is accepted exactly where each step is
/// an axiom or follows from earlier steps, and otherwise the first step that fails is told. Goes once over the
/// steps; a step takes time in proportion to its literals and its hints' literals, and to what a match looks
/// at.
pub fn check(
    alloc: Global,
    spec: &Specification,
    query: Option<&Query>,
    log: &Log,
) -> Result<Checked, LogFault>
    requires { IsNumbered log.now.statements log.now.steps }
    ensures accepted { IfOk result (λ _. IsAccepted spec.now (option_map (λ q. q.now) query.entry) log.now) }
    ensures shown { IfOk result (IsShownBy (clauses_of log.now.steps)) }
    ensures refused { IfErr result (λ e. (e ≡ fault.NoMemory) ⊎ IsFirstFault spec.now
        (option_map (λ q. q.now) query.entry) log.now e) }
    ensures exact { IsAccepted spec.now (option_map (λ q. q.now) query.entry) log.now → IfErr result (λ e. e ≡ fault.NoMemory) }
{
    judged(alloc, spec, query, log)
}

// The same, and nothing of what follows from it.
fn judged(
    alloc: Global,
    spec: &Specification,
    query: Option<&Query>,
    log: &Log,
) -> Result<Checked, LogFault>
    requires { IsNumbered log.now.statements log.now.steps }
    ensures accepted { IfOk result (λ _. IsAccepted spec.now (option_map (λ q. q.now) query.entry) log.now) }
    ensures shown { IfOk result (IsShownBy (clauses_of log.now.steps)) }
    ensures refused { IfErr result (λ e. (e ≡ fault.NoMemory) ⊎ IsFirstFault spec.now
        (option_map (λ q. q.now) query.entry) log.now e) }
{
    let Ok(axioms) = Axioms::new(alloc, spec, query, log.answers.as_slice()) else {
        return Err(LogFault::NoMemory);
    };
    let Ok(checked) = Checked::new(alloc, log.statements.len()) else {
        return Err(LogFault::NoMemory);
    };
    check_steps(
        alloc,
        &axioms,
        log.statements.as_slice(),
        &log.steps,
        checked,
    )
}

// Judges the steps in order, and notes what they show.
fn check_steps(
    alloc: Global,
    axioms: &Axioms<'_>,
    statements: &[Statement],
    steps: &Steps,
    mut checked: Checked,
) -> Result<Checked, LogFault>
    requires numbered { IsNumbered statements.now steps.now }
    requires begun { checked ≡ record { units = replicate (2 * length statements.now) false; empty = false } }
    ensures accepted { IfOk result (λ _. AreAccepted axioms.now.spec axioms.now.posed statements.now steps.now) }
    ensures shown { IfOk result (IsShownBy (clauses_of steps.now)) }
    ensures refused { IfErr result (λ e. (e ≡ fault.NoMemory) ⊎ FailsFirst axioms.now.spec axioms.now.posed
        statements.now steps.now e) }
{
    let mut replay = Replay::new(alloc);
    for place in 0..steps.len() {
        match judge(
            axioms,
            statements,
            &mut replay,
            place as u32,
            steps.get(place),
        ) {
            Ok(()) => checked.add(steps.lits(place)),
            Err(fault) => return Err(fault),
        }
    }
    Ok(checked)
}
