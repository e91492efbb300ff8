//! One fact, tried over a part.

ghost use Rattle.std.specs.Prelude.{◌≡◌, true, IfOk};
ghost use Rattle.part_facts.specs.Questions.{IsPartQuestion};
ghost use Rattle.part_laws.specs.Parts.{Places};
ghost use Rattle.posed_facts.specs.Facts.{IsPosable};
ghost use Rattle.posed_facts.specs.Questions.{fact_question};
ghost use Rattle.decided_facts.specs.Steps.{IsNear, IsSite};

use crate::site::Site;
use currency_base::NoMemory;
use fact_trials::{Trial, try_fact};
use part_facts::{facts_widen, parts_are_asked};
use part_laws::parts_narrow;
use part_narrow::narrows_exist;
use posed_facts::{Fact, fact_question, facts_are_asked};
use solver_guides::Guides;
use spec_model::{Completion, Question};
use std::alloc::Global;

/// What a part says of a fact of the whole.
#[derive(Drop)]
pub(crate) enum Near {
    /// It holds in every consistent completion of the whole.
    Holds,
    /// This is a consistent completion of the part, in which it fails.
    Fails(Completion),
    /// Nothing.
    Unknown,
}

/// Tries a fact over a part.
pub(crate) fn try_near(
    alloc: Global,
    site: &Site<'_>,
    fact: &Fact,
    guides: &mut Guides,
) -> Result<Near, NoMemory>
    requires site { IsSite site.now.task.now.spec.now site.now.places.now site.now.part.now }
    requires fact { IsPosable site.now.task.now.spec.now.relations fact.now }
    ensures { IfOk result (IsNear site.now.task.now.spec.now site.now.part.now fact.now) }
{
    let question = fact_question(alloc, site.task.spec, fact)?;
    try_question(alloc, site, fact, &question, guides)
}

/// The same by its question, if it asks of the part what it asks of the whole.
fn try_question(
    alloc: Global,
    site: &Site<'_>,
    fact: &Fact,
    question: &Question,
    guides: &mut Guides,
) -> Result<Near, NoMemory>
    requires site { IsSite site.now.task.now.spec.now site.now.places.now site.now.part.now }
    requires fact { IsPosable site.now.task.now.spec.now.relations fact.now }
    requires question { question.now ≡ fact_question site.now.task.now.spec.now.relations fact.now }
    ensures { IfOk result (IsNear site.now.task.now.spec.now site.now.part.now fact.now) }
{
    facts_are_asked();
    parts_are_asked();
    facts_widen();
    narrows_exist();
    parts_narrow();
    if !is_of_names(question) {
        return Ok(Near::Unknown);
    }
    match try_fact(alloc, site.part, question, site.task.budget, guides) {
        Ok(Trial::Holds) => Ok(Near::Holds),
        Ok(Trial::Fails(narrow)) => Ok(Near::Fails(narrow)),
        Ok(Trial::Open(_)) => Ok(Near::Unknown),
        Err(NoMemory) => Err(NoMemory),
    }
}

/// Does a question speak of entities by their names, so that a part is asked the same?
fn is_of_names(question: &Question) -> bool
    ensures { result ≡ true → (n : Places) → IsPartQuestion n question.now question.now }
{
    match question {
        Question::Answers(_) => true,
        _ => false,
    }
}
