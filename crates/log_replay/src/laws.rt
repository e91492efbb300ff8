ghost use Rattle.std.specs.Prelude.{◌≡◌, ℕ, List};
ghost use Rattle.currency_base.specs.declared.lit.Lit.{Lit};
ghost use Rattle.refutation_log.specs.Follows.{FollowsFrom};
ghost use Rattle.log_replay.specs.declared.fault.StepFault.{StepFault};
ghost use Rattle.log_replay.specs.Replays.{IsStepRefusal};

/// A law: what becomes of a step is determined. A clause that follows from earlier ones with its hints has
/// no cause of refusal, and two causes are the same one.
pub fn one_step_end()
    ensures follows { (earlier : List (List Lit)) (clause : List Lit) (hints : List ℕ) (fault : StepFault)
        → FollowsFrom earlier clause hints → IsStepRefusal earlier clause hints fault → ⊥ }
    ensures refused { (earlier : List (List Lit)) (clause : List Lit) (hints : List ℕ) (one other : StepFault)
        → IsStepRefusal earlier clause hints one → IsStepRefusal earlier clause hints other → one ≡ other }
{}
