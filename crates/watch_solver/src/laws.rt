ghost use Rattle.std.specs.Prelude.{ℕ, List};
ghost use Rattle.refutation_log.specs.Counted.{CountedAreNew};
ghost use Rattle.refutation_log.specs.declared.step.Step.{Step};
ghost use Rattle.watch_solver.specs.Decided.{HasGrown, WholeScopeGivesModels};

/// Law: where all variables are of the scope, the truths of a trail that is a model on it are a model.
pub fn whole_scope_gives_models()
    ensures { WholeScopeGivesModels }
{}

/// Law: where each counted step of a log is new after those before it, this is so after a decision too.
pub fn counted_stay_new()
    ensures { (vars : ℕ) → (old new : List Step) → CountedAreNew old → HasGrown vars old new → CountedAreNew new }
{}
