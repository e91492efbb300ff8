ghost use Rattle.std.specs.Prelude.{◌≡◌, ◌⊎◌, ◌<◌, ◌^◌, ◌∷◌, ◌++◌, [], true, length, OnOk, IfErr};
ghost use Rattle.refutation_log.specs.Steps.{label_of, step_of, clause_of};
ghost use Rattle.refutation_log.specs.Follows.{FollowsFrom};
ghost use Rattle.log_axioms.specs.Axioms.{is_axiom};
ghost use Rattle.log_checker.specs.Accepted.{IsAcceptedStep, FailsAt, FailsAsAxiom, FailsToFollow};
ghost use Rattle.refutation_log.specs.Numbered.{HasFewHints};
ghost use Rattle.log_checker.specs.declared.fault.LogFault.TheVariants as fault;

use crate::LogFault;
use currency_base::Lit;
use log_axioms::Axioms;
use log_replay::{Replay, StepFault};
use refutation_log::{LabelRef, Statement, StepRef};

/// Judges the step at a place after the earlier clauses, which it joins if it is accepted.
pub(crate) fn judge(
    axioms: &Axioms<'_>,
    statements: &[Statement],
    replay: &mut Replay,
    at: u32,
    step: StepRef<'_>,
) -> Result<(), LogFault>
    requires { HasFewHints (step_of step) }
    ensures accepted { OnOk result (IsAcceptedStep axioms.now.spec axioms.now.posed statements.now replay.old
        (step_of step.entry)) }
    ensures added { OnOk result (replay.new ≡ replay.old ++ clause_of (step_of step.entry) ∷ []) }
    ensures fails { IfErr result (λ e. (e ≡ fault.NoMemory) ⊎ FailsAt axioms.now.spec axioms.now.posed statements.now
        replay.old at (step_of step.entry) e) }
{
    match step {
        StepRef::Axiom { label, lits } => judge_axiom(axioms, statements, replay, at, label, lits),
        StepRef::OnDemand { label, lits } => judge_axiom(
            axioms, statements, replay, at, label, lits,
        ),
        StepRef::Learn { lits, hints, .. } => judge_learned(replay, at, lits, hints),
    }
}

// Judges an axiom.
fn judge_axiom(
    axioms: &Axioms<'_>,
    statements: &[Statement],
    replay: &mut Replay,
    at: u32,
    label: LabelRef<'_>,
    lits: &[Lit],
) -> Result<(), LogFault>
    ensures accepted { OnOk result (is_axiom axioms.now.spec axioms.now.posed statements.now (label_of label.entry)
        lits.now ≡ true) }
    ensures added { OnOk result (replay.new ≡ replay.old ++ lits.now ∷ []) }
    ensures fails { IfErr result (λ e. (e ≡ fault.NoMemory) ⊎ FailsAsAxiom axioms.now.spec axioms.now.posed
        statements.now at (label_of label.entry) lits.now e) }
{
    let Ok(is_axiom) = axioms.is_axiom(statements, label, lits) else {
        return Err(LogFault::NoMemory);
    };
    if !is_axiom {
        return Err(LogFault::NotAnAxiom { step: at });
    }
    match replay.axiom(lits) {
        Ok(()) => Ok(()),
        Err(_) => Err(LogFault::NoMemory),
    }
}

// Judges a clause that is to follow with its hints.
fn judge_learned(replay: &mut Replay, at: u32, lits: &[Lit], hints: &[u32]) -> Result<(), LogFault>
    requires { length hints.now < 2 ^ 32 }
    ensures accepted { OnOk result (FollowsFrom replay.old lits.now hints.now) }
    ensures added { OnOk result (replay.new ≡ replay.old ++ lits.now ∷ []) }
    ensures fails { IfErr result (λ e. (e ≡ fault.NoMemory) ⊎ FailsToFollow replay.old at lits.now hints.now e) }
{
    match replay.step(lits, hints) {
        Ok(()) => Ok(()),
        Err(StepFault::NotUnit { place }) => Err(LogFault::NotDerived { step: at, place }),
        Err(StepFault::NoConflict) => Err(LogFault::NotDerived {
            step: at,
            place: hints.len() as u32,
        }),
        Err(StepFault::UnknownHint { .. }) => Err(LogFault::UnknownHint { step: at }),
        Err(StepFault::NoMemory) => Err(LogFault::NoMemory),
    }
}
