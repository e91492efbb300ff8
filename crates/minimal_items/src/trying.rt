ghost use Rattle.std.specs.Prelude.{◌≡◌, length, IfOk};
ghost use Rattle.search_logs.specs.SearchLogs.{IsWithin};
ghost use Rattle.spec_items.specs.Items.{items_of};
ghost use Rattle.unit_questions.specs.Facts.{IsFactQuestion};
ghost use Rattle.minimal_items.specs.Among.{marked_items};
ghost use Rattle.minimal_items.specs.Trials.{IsPartTrial, IsTrialWith};

use crate::laws::{is_specification, items_stand_once};
use currency_base::NoMemory;
use fact_trials::{Trial, try_fact};
use item_limits::fewer_are_within;
use kept_items::{alike_are_one, with_marked};
use report_model::Report;
use solver_guides::Guides;
use spec_model::{Completion, Question, Specification};
use std::alloc::Global;

/// What is told of a fact with some items alone.
#[derive(Drop)]
pub(crate) enum Tried {
    /// It holds in every consistent completion.
    Holds,
    /// It fails in this consistent completion.
    Fails(Completion),
    /// The budget is spent on this specification, as the report says.
    Open(Specification, Report),
}

/// Tries the fact of a question with the marked items alone.
pub(crate) fn try_marked(
    alloc: Global,
    spec: &Specification,
    question: &Question,
    marks: &[bool],
    budget: u64,
    guides: &mut Guides,
) -> Result<Tried, NoMemory>
    requires within { IsWithin spec.now }
    requires question { IsFactQuestion spec.now.relations question.now }
    requires marks { length marks.now ≡ length (items_of spec.now) }
    ensures { IfOk result (IsTrialWith spec.now question.now (marked_items (items_of spec.now) marks.now) budget) }
{
    items_stand_once(spec);
    fewer_are_within();
    alike_are_one();
    let part = with_marked(alloc, spec, marks)?;
    is_specification(&part);
    try_part(alloc, part, question, budget, guides)
}

/// Tries the fact of a question over a part, which stays where the budget is spent.
fn try_part(
    alloc: Global,
    part: Specification,
    question: &Question,
    budget: u64,
    guides: &mut Guides,
) -> Result<Tried, NoMemory>
    requires within { IsWithin part }
    requires question { IsFactQuestion part.relations question.now }
    ensures { IfOk result (IsPartTrial part question.now budget) }
{
    match try_fact(alloc, &part, question, budget, guides) {
        Ok(Trial::Holds) => Ok(Tried::Holds),
        Ok(Trial::Fails(completion)) => Ok(Tried::Fails(completion)),
        Ok(Trial::Open(report)) => Ok(Tried::Open(part, report)),
        Err(NoMemory) => Err(NoMemory),
    }
}
