ghost use Rattle.std.specs.Prelude.{◌<◌, ◌^◌, ℕ, List};
ghost use Rattle.refutation_log.specs.Counted.{AreWithin, CountedAreNew, counted_steps};
ghost use Rattle.refutation_log.specs.declared.step.Step.{Step};

/// A law: where each counted step is new after those before it, fewer steps are counted than 3 to the
/// number of statements.
pub fn counted_steps_are_few()
    ensures { (statements : ℕ) → (steps : List Step) → AreWithin statements steps → CountedAreNew steps
        → counted_steps steps < 3 ^ statements }
{}
