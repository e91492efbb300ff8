ghost use Rattle.std.specs.Prelude.{◌≡◌, ℕ, IfOk, IfSome};
ghost use Rattle.known_models.specs.Known.{IsWhole};
ghost use Rattle.order_search.specs.Kept.{IsHeld, search_of};
ghost use Rattle.order_search.specs.Made.{IsFalseIn};
ghost use Rattle.order_search.specs.Searches.{Tells};
ghost use Rattle.order_search.specs.Tied.{IsTied};

use crate::Outcome;
use crate::parting::Parting;
use crate::progress::Progress;
use crate::subject::Subject;
use currency_base::{Assignment, Lit, NoMemory};
use known_models::known_is_model;
use log_laws::logs_are_sound;
use std::alloc::Global;

/// The known model, where every part of it is done: a copy of its truths and of its completion. The part of the goal is named by
/// the contract alone.
pub(crate) fn told(
    subject: &Subject<'_>,
    progress: &Progress,
    parting: &Parting,
    alloc: Global,
    goal: Option<Lit>,
    _own: Option<u32>,
) -> Result<Outcome, NoMemory>
    requires held { IsHeld subject.now progress.now.solver progress.now.brought.items }
    requires tied { IsTied subject.now parting.now progress.now.solver.steps }
    requires goal { IfSome goal (IsFalseIn parting.now _own) }
    requires whole { IsWhole parting.now.known }
    ensures { (left : ℕ) → IfOk result (Tells (search_of subject.now progress.now.solver) goal left) }
{
    known_is_model();
    logs_are_sound();
    let known = &parting.known;
    let truths = copy_of(alloc, known.truths())?;
    let completion = subject.copied(alloc, known.completion())?;
    Ok(Outcome::Model { truths, completion })
}

// A copy of an assignment.
fn copy_of(alloc: Global, truths: &Assignment) -> Result<Assignment, NoMemory>
    ensures { IfOk result (λ copy. copy ≡ truths.now) }
{
    let mut copy = Assignment::new(alloc, truths.vars())?;
    for var in 0..truths.vars() {
        copy.set(var, truths.value(var));
    }
    Ok(copy)
}
