ghost use Rattle.std.specs.Prelude.{◌≡◌, ℕ, Bool, true, List, All};
ghost use Rattle.currency_base.specs.declared.lit.Lit.{Lit};
ghost use Rattle.refutation_log.specs.Steps.{clauses_of};
ghost use Rattle.refutation_log.specs.Follows.{FollowsFrom};
ghost use Rattle.refutation_log.specs.Counted.{holds};
ghost use Rattle.refutation_log.specs.declared.step.Step.{Step};
ghost use Rattle.log_laws.specs.Truths.{IsTrueUnder, AreGrounded};

/// A law: whatever truth the variables have, a clause that follows from earlier clauses is true where
/// these are.
pub fn following_is_sound()
    ensures { (truth : ℕ → Bool) → (earlier : List (List Lit)) → (clause : List Lit) → (hints : List ℕ)
        → FollowsFrom earlier clause hints → All (IsTrueUnder truth) earlier → IsTrueUnder truth clause }
{}

/// A law: whatever truth the variables have, where the axioms of a log are true and each other step of it
/// follows from the steps before it, the clause of every step is true.
pub fn logs_are_sound()
    ensures { (truth : ℕ → Bool) → (steps : List Step) → AreGrounded (λ lit. holds truth lit ≡ true) steps
        → All (IsTrueUnder truth) (clauses_of steps) }
{}
