ghost use Rattle.std.specs.Prelude.{◌≡◌, ◌≤◌, ◌*◌, ◌^◌, ◌∷◌, ◌++◌, ℕ, List, [], All, true, false, length, IfOk, OnOk, OnErr};
ghost use Rattle.currency_base.specs.declared.lit.Lit.{Lit};
ghost use Rattle.search_trail.specs.Trails.{whole_scope};
ghost use Rattle.refutation_log.specs.Steps.{clause_of, clauses_of, step_of};
ghost use Rattle.refutation_log.specs.declared.step.Step.TheVariants.{Learn};
ghost use Rattle.search_state.specs.Held.{AreHeld};
ghost use Rattle.search_state.specs.States.{IsFit};

use crate::search::Search;
use conflict_analysis::Analysis;
use currency_base::{Lit, NoMemory};
use refutation_log::{StepRef, Steps};
use std::alloc::Global;

/// The clauses of steps, over so many variables.
pub(crate) fn filled(alloc: Global, vars: u32, steps: &Steps) -> Result<Search, NoMemory>
    requires few { vars ≤ 2 ^ 31 }
    requires fit { All (λ step. IsFit vars (clause_of step)) steps.now }
    ensures held { IfOk result (λ s. AreHeld (clauses_of steps.now) s.arena s.trail s.refuted) }
    ensures vars { IfOk result (λ s. s.trail.vars ≡ vars) }
    ensures ground { IfOk result (λ s. s.trail.starts ≡ []) }
    ensures scope { IfOk result (λ s. s.trail.scope ≡ whole_scope vars) }
    ensures watchers { IfOk result (λ s. length s.arena.watchers ≡ 2 * vars) }
{
    let mut search = Search::new(alloc, vars)?;
    for place in 0..steps.len() {
        search.prepare(steps.lits(place))?;
        search.put();
    }
    Ok(search)
}

/// Puts a step after the others, and its clause in, where nothing is assumed. A refusal changes nothing that is seen.
pub(crate) fn append(
    steps: &mut Steps,
    search: &mut Search,
    step: StepRef<'_>,
) -> Result<(), NoMemory>
    requires ground { search.old.trail.starts ≡ [] }
    requires vars { length search.old.arena.watchers ≡ 2 * search.old.trail.vars }
    requires fit { IsFit search.old.trail.vars (clause_of (step_of step)) }
    ensures steps { OnOk result (steps.new ≡ steps.old ++ step_of step.entry ∷ []) }
    ensures held { OnOk result ((clauses : List (List Lit)) → AreHeld clauses search.old.arena search.old.trail search.old.refuted
        → AreHeld (clauses ++ clause_of (step_of step.entry) ∷ []) search.new.arena search.new.trail search.new.refuted) }
    ensures ground { search.new.trail.starts ≡ [] }
    ensures vars { search.new.trail.vars ≡ search.old.trail.vars }
    ensures scope { search.new.trail.scope ≡ search.old.trail.scope }
    ensures watchers { length search.new.arena.watchers ≡ length search.old.arena.watchers }
    ensures err_steps { OnErr result (steps.new ≡ steps.old) }
    ensures err_held { OnErr result ((clauses : List (List Lit)) → AreHeld clauses search.old.arena search.old.trail
        search.old.refuted
        → AreHeld clauses search.new.arena search.new.trail search.new.refuted) }
    ensures err_trail { OnErr result (search.new.trail ≡ search.old.trail) }
    ensures err_refuted { OnErr result (search.new.refuted ≡ search.old.refuted) }
{
    let Ok(()) = search.prepare(lits_in(step)) else {
        return Err(NoMemory);
    };
    let Ok(()) = steps.push(step) else {
        return Err(NoMemory);
    };
    search.put();
    Ok(())
}

/// Puts the clause that an analysis derived after the others, where nothing is assumed. Answers its place. A refusal
/// changes nothing that is seen.
pub(crate) fn conclude(
    steps: &mut Steps,
    search: &mut Search,
    analysis: &Analysis,
) -> Result<u32, NoMemory>
    requires ground { search.old.trail.starts ≡ [] }
    requires vars { length search.old.arena.watchers ≡ 2 * search.old.trail.vars }
    requires fit { IsFit search.old.trail.vars analysis.now.lits }
    requires count { length search.old.arena.clauses ≡ length steps.old }
    ensures steps { OnOk result (steps.new ≡ steps.old ++ Learn analysis.now.lits analysis.now.hints false ∷ []) }
    ensures held { OnOk result ((clauses : List (List Lit)) → AreHeld clauses search.old.arena search.old.trail search.old.refuted
        → AreHeld (clauses ++ analysis.now.lits ∷ []) search.new.arena search.new.trail search.new.refuted) }
    ensures ground { search.new.trail.starts ≡ [] }
    ensures vars { search.new.trail.vars ≡ search.old.trail.vars }
    ensures scope { search.new.trail.scope ≡ search.old.trail.scope }
    ensures watchers { length search.new.arena.watchers ≡ length search.old.arena.watchers }
    ensures place { IfOk result (λ place. place ≡ length steps.old) }
    ensures err_steps { OnErr result (steps.new ≡ steps.old) }
    ensures err_held { OnErr result ((clauses : List (List Lit)) → AreHeld clauses search.old.arena search.old.trail
        search.old.refuted
        → AreHeld clauses search.new.arena search.new.trail search.new.refuted) }
{
    let place = search.arena.count();
    let step = StepRef::Learn {
        lits: analysis.lits(),
        hints: analysis.hints(),
        counted: false,
    };
    append(steps, search, step)?;
    Ok(place)
}

// The literals of a step that is lent.
fn lits_in<'a>(step: StepRef<'a>) -> &'a [Lit]
    ensures { result.now ≡ clause_of (step_of step.entry) }
{
    match step {
        StepRef::Axiom { label: _, lits } => lits,
        StepRef::OnDemand { label: _, lits } => lits,
        StepRef::Learn {
            lits,
            hints: _,
            counted: _,
        } => lits,
    }
}
