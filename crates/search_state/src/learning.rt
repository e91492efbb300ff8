ghost use Rattle.std.specs.Prelude.{◌≡◌, ◌<◌, ◌≤◌, ◌==◌, ◌∷◌, ◌++◌, ℕ, List, [], All, true, length, if◌then◌else◌, OnOk, OnErr};
ghost use Rattle.currency_base.specs.declared.lit.Lit.{Lit};
ghost use Rattle.refutation_log.specs.declared.step.Step.TheVariants.{Learn};
ghost use Rattle.search_state.specs.Held.{AreHeld, lowest_back};

use crate::search::Search;
use conflict_analysis::Analysis;
use currency_base::NoMemory;
use refutation_log::{StepRef, Steps};
use search_trail::Trail;
use solver_guides::Guides;

/// Puts the step of a learned clause after the others, and makes room for the clause. A refusal changes nothing that is
/// seen.
pub(crate) fn note_learned(
    steps: &mut Steps,
    search: &mut Search,
    analysis: &Analysis,
) -> Result<(), NoMemory>
    ensures held { (clauses : List (List Lit)) → AreHeld clauses search.old.arena search.old.trail search.old.refuted
        → AreHeld clauses search.new.arena search.new.trail search.new.refuted }
    ensures count { length search.new.arena.clauses ≡ length search.old.arena.clauses }
    ensures watchers { length search.new.arena.watchers ≡ length search.old.arena.watchers }
    ensures trail { search.new.trail ≡ search.old.trail }
    ensures refuted { search.new.refuted ≡ search.old.refuted }
    ensures room { OnOk result (1 ≤ search.new.arena.clauses_left) }
    ensures lits_room { OnOk result (length analysis.now.lits ≤ search.new.arena.lits_left) }
    ensures steps { OnOk result (steps.new ≡ steps.old ++ Learn analysis.now.lits analysis.now.hints true ∷ []) }
    ensures err_steps { OnErr result (steps.new ≡ steps.old) }
{
    let Ok(()) = search.reserve(analysis.lits().len()) else {
        return Err(NoMemory);
    };
    steps.push(StepRef::Learn {
        lits: analysis.lits(),
        hints: analysis.hints(),
        counted: true,
    })
}

/// Tells the guides the variables that led an analysis to its clause: those of resolved literals that are not true anyway,
/// but for those that only imply a literal that was left out, and those of the clause.
pub(crate) fn tell_seen(analysis: &Analysis, trail: &Trail, guides: &mut Guides)
    requires { All (λ place. place < length trail.now.entries) analysis.now.resolved }
{
    let base = if trail.depth() > 0 { trail.start(1) } else { 0 };
    for place in analysis.resolved() {
        if *place >= base && analysis.leads(*place) {
            guides.saw(trail.assigned()[*place as usize].var());
        }
    }
    for lit in analysis.lits() {
        guides.saw(lit.var());
    }
}

/// The level to which a learned clause leads back: one of one literal holds where nothing is assumed.
pub(crate) fn back_of(analysis: &Analysis) -> u32
    ensures { result ≡ lowest_back analysis.now }
{
    if analysis.lits().len() == 1 {
        0
    } else {
        analysis.back()
    }
}
