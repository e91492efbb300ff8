ghost use Rattle.std.specs.Prelude.{◌≡◌, map, IfOk, OnOk};
ghost use Rattle.log_trim.specs.Trimmed.{AreInPlace, IsTrimmed, kept_of, rank, renumbered_statement, renumbered_step};
ghost use Rattle.log_trim.specs.Marked.{is_marked, AreNamed, AreReached, AreUsed};

use crate::copies::{kept_answers, kept_statements, kept_steps, renumber_places};
use crate::needs::{named_answers, reached_steps, used_statements};
use crate::numbering::Numbering;
use currency_base::NoMemory;
use refutation_log::{HintList, Log};
use std::alloc::Global;

/// What goals need of a log, and their places in it.
#[derive(Drop)]
pub struct Trimmed {
    pub log: Log,
    pub goals: HintList,
}

/// The steps that the goals reach by hints, the statements that stand in one of them, and the answers that
/// these name, each in order and renumbered; and the goals' new places.
pub fn trim(alloc: Global, log: &Log, goals: &[u32]) -> Result<Trimmed, NoMemory>
    requires { AreInPlace log.now goals.now }
    ensures { IfOk result (λ trimmed. IsTrimmed log.now goals.now trimmed) }
{
    let steps = reached(alloc, log, goals)?;
    let statements = used(alloc, log, goals, &steps)?;
    let answers = named(alloc, log, goals, &statements)?;
    over(alloc, log, goals, &steps, &statements, &answers)
}

// The steps that goals reach.
fn reached(alloc: Global, log: &Log, goals: &[u32]) -> Result<Numbering, NoMemory>
    requires { AreInPlace log.now goals.now }
    ensures { IfOk result (AreReached log.now goals.now) }
{
    let marks = reached_steps(alloc, &log.steps, goals)?;
    Numbering::new(alloc, marks)
}

// The statements whose variables stand in such steps.
#[tactic(auto, using(crate::proofs::Whole::used_are))]
fn used(alloc: Global, log: &Log, goals: &[u32], steps: &Numbering) -> Result<Numbering, NoMemory>
    requires in_place { AreInPlace log.now goals.now }
    requires steps { AreReached log.now goals.now steps.now }
    ensures { IfOk result (AreUsed log.now goals.now) }
{
    let marks = used_statements(alloc, log, steps.marks())?;
    let numbering = Numbering::new(alloc, marks)?;
    Ok(numbering)
}

// The answers that such statements name.
#[tactic(auto, using(crate::proofs::Whole::named_are, crate::proofs::Whole::answers_in))]
fn named(
    alloc: Global,
    log: &Log,
    goals: &[u32],
    statements: &Numbering,
) -> Result<Numbering, NoMemory>
    requires in_place { AreInPlace log.now goals.now }
    requires statements { AreUsed log.now goals.now statements.now }
    ensures { IfOk result (AreNamed log.now goals.now) }
{
    let marks = named_answers(alloc, log, statements.marks())?;
    let numbering = Numbering::new(alloc, marks)?;
    Ok(numbering)
}

// The log of what is kept, and the goals' new places. (It is dropped in one place.)
#[tactic(auto, using(crate::proofs::Whole::trimmed_is))]
fn over(
    alloc: Global,
    log: &Log,
    goals: &[u32],
    steps: &Numbering,
    statements: &Numbering,
    answers: &Numbering,
) -> Result<Trimmed, NoMemory>
    requires in_place { AreInPlace log.now goals.now }
    requires steps { AreReached log.now goals.now steps.now }
    requires statements { AreUsed log.now goals.now statements.now }
    requires answers { AreNamed log.now goals.now answers.now }
    ensures { IfOk result (λ trimmed. IsTrimmed log.now goals.now trimmed) }
{
    let mut trimmed = Trimmed {
        log: Log::new(alloc),
        goals: HintList::new(alloc),
    };
    match put(alloc, &mut trimmed, log, goals, steps, statements, answers) {
        Ok(()) => Ok(trimmed),
        Err(error) => Err(error),
    }
}

// Puts in what is kept, and the goals' new places.
#[tactic(auto, using(crate::proofs::Whole::vars_within, crate::proofs::Whole::goals_within))]
fn put(
    alloc: Global,
    into: &mut Trimmed,
    log: &Log,
    goals: &[u32],
    steps: &Numbering,
    statements: &Numbering,
    answers: &Numbering,
) -> Result<(), NoMemory>
    requires in_place { AreInPlace log.now goals.now }
    requires steps { AreReached log.now goals.now steps.now }
    requires statements { AreUsed log.now goals.now statements.now }
    requires answers { AreNamed log.now goals.now answers.now }
    ensures answers { OnOk result (into.new.log.answers ≡ kept_of (is_marked answers.now) log.now.answers) }
    ensures statements { OnOk result (into.new.log.statements ≡ map (renumbered_statement (is_marked answers.now))
        (kept_of (is_marked statements.now) log.now.statements)) }
    ensures steps { OnOk result (into.new.log.steps ≡ map
        (renumbered_step (is_marked steps.now) (is_marked statements.now)) (kept_of (is_marked steps.now) log.now.steps)) }
    ensures goals { OnOk result (into.new.goals ≡ map (rank (is_marked steps.now)) goals.now) }
{
    into.log.answers = kept_answers(alloc, &log.answers, answers)?;
    into.log.statements = kept_statements(alloc, &log.statements, statements, answers)?;
    into.log.steps = kept_steps(alloc, &log.steps, steps, statements)?;
    into.goals = renumber_places(alloc, goals, steps)?;
    Ok(())
}
