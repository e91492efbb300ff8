//! Completions of the whole in which a fact is seen to fail.

ghost use Rattle.std.specs.Prelude.{◌≡◌, [], true, IfOk, IfSome};
ghost use Rattle.answer_laws.specs.Answered.{IsAnswerIn};
ghost use Rattle.part_join.specs.Joined.{IsJoined};
ghost use Rattle.query_model.specs.Fitting.{IsQuery};
ghost use Rattle.spec_model.specs.Completion.{IsCompletion};
ghost use Rattle.unit_questions.specs.Facts.{IsFactQuestion};
ghost use Rattle.near_items.specs.Sites.{IsSite, SeesFail};

use crate::site::Site;
use currency_base::NoMemory;
use minimal_items::has_answer;
use part_join::{completions_fit, joined};
use query_model::Query;
use spec_model::{Completion, Question, Specification};
use std::alloc::Global;

/// A completion of the part joined with one of the whole, where the fact is seen to fail in it.
pub(crate) fn joined_failing(
    alloc: Global,
    site: &Site<'_>,
    base: &Completion,
    narrow: &Completion,
) -> Result<Option<Completion>, NoMemory>
    requires site { IsSite site.now.spec.now site.now.places.now site.now.part.now site.now.question.now site.now.asks.now }
    requires base { IsCompletion site.now.spec.now.relations base.now }
    requires narrow { IsCompletion site.now.part.now.relations narrow.now }
    ensures joined { IfOk result (λ found. IfSome found
        (IsJoined site.now.spec.now.relations site.now.places.now base.now narrow.now)) }
    ensures seen { IfOk result (λ found. IfSome found (SeesFail site.now.spec.now.relations site.now.question.now)) }
{
    completions_fit();
    let wide = joined(alloc, site.spec, site.places, base, narrow)?;
    match is_seen_to_fail(alloc, site.spec, site.question, &wide) {
        Ok(true) => Ok(Some(wide)),
        Ok(false) => Ok(None),
        Err(NoMemory) => Err(NoMemory),
    }
}

/// Is it seen that the fact of a question fails in a completion? Of pairs and of a contradiction it follows.
fn is_seen_to_fail(
    alloc: Global,
    spec: &Specification,
    question: &Question,
    completion: &Completion,
) -> Result<bool, NoMemory>
    requires question { IsFactQuestion spec.now.relations question.now }
    requires completion { IsCompletion spec.now.relations completion.now }
    ensures { IfOk result (λ seen. seen ≡ true → SeesFail spec.now.relations question.now completion.now) }
{
    match question {
        Question::Consistent => Ok(true),
        Question::Certain(_) => Ok(true),
        Question::Same(_) => Ok(true),
        Question::Answers(query) => has_none(alloc, spec, query, completion),
    }
}

/// Is the empty tuple no answer over a completion?
fn has_none(
    alloc: Global,
    spec: &Specification,
    query: &Query,
    completion: &Completion,
) -> Result<bool, NoMemory>
    requires query { IsQuery query.now }
    requires completion { IsCompletion spec.now.relations completion.now }
    ensures { IfOk result (λ none. none ≡ true → IsAnswerIn spec.now.relations query.now [] completion.now → ⊥) }
{
    match has_answer(alloc, spec, query, completion) {
        Ok(has) => Ok(!has),
        Err(NoMemory) => Err(NoMemory),
    }
}
