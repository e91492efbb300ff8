ghost use Rattle.bound_spec.specs.Growth.{IsWithinLimits};
ghost use Rattle.search_logs.specs.SearchLogs.{IsWithin};

use certain_answers::discard;
use currency_base::{NoMemory, TupleList};
use order_search::{Outcome, Search};
use refutation_log::{LabelRef, Log, StepRef};
use solver_guides::Guides;
use spec_model::{RelList, Specification};
use std::alloc::Global;
use watch_solver::Budget;

/// The budget where none is said.
pub const BUDGET: u64 = 100_000;

/// What a search came to: how many steps its log has of each kind, how many completions were found that a report lists, and how
/// many models in all that are consistent completions.
#[derive(Clone, Copy, Debug, PartialEq, Eq)]
pub struct Counts {
    pub axioms: u64,
    pub three_rows: u64,
    pub learned: u64,
    pub on_demand: u64,
    pub completions: u64,
    pub models: u64,
}

/// What a search for a consistent completion came to, if there is an end within the budget.
pub fn searched(
    alloc: Global,
    spec: &Specification,
    guides: &mut Guides,
) -> Result<Option<Counts>, NoMemory>
    requires { IsWithinLimits spec.now }
{
    is_within(spec);
    let none = TupleList::new(alloc);
    match Search::new(alloc, spec, None, RelList::new(alloc), none, guides) {
        Ok(search) => found(alloc, search, guides),
        Err(error) => Err(error),
    }
}

// What a search that has begun comes to.
fn found(
    alloc: Global,
    mut search: Search<'_>,
    guides: &mut Guides,
) -> Result<Option<Counts>, NoMemory> {
    let mut units = Budget::new(BUDGET);
    let outcome = search.decide(alloc, None, &mut units, guides);
    let told = counted(search.log());
    discard(search);
    match outcome {
        Ok(Outcome::Model { .. }) => Ok(Some(Counts {
            completions: 1,
            models: 1,
            ..told
        })),
        Ok(Outcome::Empty(_)) => Ok(Some(told)),
        Ok(_) => Ok(None),
        Err(error) => Err(error),
    }
}

/// No work: a specification within its limits keeps what a search asks of it.
pub fn is_within(spec: &Specification)
    requires { IsWithinLimits spec.now }
    ensures { IsWithin spec.now }
{
    let _ = spec.relations();
    let _ = spec.rules();
    let _ = spec.copies();
}

/// The steps of a log by kinds, and no completion or model.
pub fn counted(log: &Log) -> Counts {
    let mut told = Counts {
        axioms: 0,
        three_rows: 0,
        learned: 0,
        on_demand: 0,
        completions: 0,
        models: 0,
    };
    for place in 0..log.steps.len() {
        told = with_step(told, log.steps.get(place));
    }
    told
}

// One step more.
fn with_step(told: Counts, step: StepRef<'_>) -> Counts {
    match step {
        StepRef::Axiom {
            label: LabelRef::Transitive { .. },
            ..
        } => Counts {
            three_rows: told.three_rows.saturating_add(1),
            ..told
        },
        StepRef::Learn { .. } => Counts {
            learned: told.learned.saturating_add(1),
            ..told
        },
        StepRef::OnDemand { .. } => Counts {
            on_demand: told.on_demand.saturating_add(1),
            ..told
        },
        _ => Counts {
            axioms: told.axioms.saturating_add(1),
            ..told
        },
    }
}
