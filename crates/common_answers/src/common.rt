ghost use Rattle.std.specs.Prelude.{◌≡◌, ◌≢◌, ◌∷◌, ◌++◌, List, [], All, IfOk, IfSome, IfNone, true, false};
ghost use Rattle.answer_laws.specs.Answered.{IsAnswerIn};
ghost use Rattle.common_answers.specs.Candidates.{AreLeft};
ghost use Rattle.common_answers.specs.Common.{AreCommon};
ghost use Rattle.query_model.specs.Answers.{AreAscending};
ghost use Rattle.query_model.specs.Fitting.{IsQuery};
ghost use Rattle.spec_model.specs.Completion.{IsCompletion, Rankings};

use crate::candidates::Candidates;
use crate::printed::are_answers;
use currency_base::{NoMemory, TupleList};
use current_tuples::{current, one_current_instance};
use query_model::Query;
use spec_model::{Completion, Specification};
use std::alloc::Global;
use ucq_answers::IndexedInstance;

/// Are these ascending tuples exactly those that are answers over the current instance of each of the completions? Over
/// each completion, each of the tuples is looked up; the answers over the first that are none of them are looked up over
/// the others, as long as they are answers.
pub fn are_common(
    alloc: Global,
    spec: &Specification,
    query: &Query,
    completions: &[Completion],
    tuples: &TupleList,
) -> Result<bool, NoMemory>
    requires query { IsQuery query.now }
    requires completions { All (IsCompletion spec.now.relations) completions.now }
    requires ascending { AreAscending tuples.now }
    requires some { completions.now ≢ [] }
    ensures is { IfOk result (λ one. one ≡ true → AreCommon spec.now.relations query.now tuples.now completions.now) }
    ensures other { IfOk result (λ one. one ≡ false → AreCommon spec.now.relations query.now tuples.now completions.now → ⊥) }
{
    let Some(mut others) = others_in(alloc, spec, query, &completions[0], tuples)? else {
        return Ok(false);
    };
    for at in 1..completions.len() {
        if !stay_common(alloc, spec, query, &completions[at], tuples, &mut others)? {
            return Ok(false);
        }
    }
    Ok(others.is_empty())
}

// The answers over a completion that are none of the tuples; none, where one of the tuples is no answer.
fn others_in(
    alloc: Global,
    spec: &Specification,
    query: &Query,
    completion: &Completion,
    tuples: &TupleList,
) -> Result<Option<Candidates>, NoMemory>
    requires query { IsQuery query.now }
    requires completion { IsCompletion spec.now.relations completion.now }
    requires ascending { AreAscending tuples.now }
    ensures some { IfOk result (λ found. IfSome found (AreLeft spec.now.relations query.now tuples.now (completion.now ∷ []))) }
    ensures none { IfOk result (λ found. IfNone found
        (All (λ tuple. IsAnswerIn spec.now.relations query.now tuple completion.now) tuples.now → ⊥)) }
{
    one_current_instance();
    let instance = current(alloc, spec, completion)?;
    let indexed = IndexedInstance::new(alloc, query, &instance)?;
    if !are_answers(alloc, &indexed, tuples)? {
        return Ok(None);
    }
    let Some(answers) = indexed.answers(alloc, usize::MAX)? else {
        return Err(NoMemory);
    };
    let others = Candidates::new(alloc, answers, tuples)?;
    Ok(Some(others))
}

// Are the tuples answers over one completion more? Of the others those stay that are.
fn stay_common(
    alloc: Global,
    spec: &Specification,
    query: &Query,
    completion: &Completion,
    tuples: &TupleList,
    others: &mut Candidates,
) -> Result<bool, NoMemory>
    requires query { IsQuery query.now }
    requires completion { IsCompletion spec.now.relations completion.now }
    ensures are { IfOk result (λ are. are ≡ true → (earlier : List Rankings)
        → AreLeft spec.now.relations query.now tuples.now earlier others.old
        → AreLeft spec.now.relations query.now tuples.now (earlier ++ completion.now ∷ []) others.new) }
    ensures none { IfOk result (λ are. are ≡ false
        → All (λ tuple. IsAnswerIn spec.now.relations query.now tuple completion.now) tuples.now → ⊥) }
{
    one_current_instance();
    let instance = current(alloc, spec, completion)?;
    let indexed = IndexedInstance::new(alloc, query, &instance)?;
    if !are_answers(alloc, &indexed, tuples)? {
        return Ok(false);
    }
    others.keep(alloc, &indexed)?;
    Ok(true)
}
