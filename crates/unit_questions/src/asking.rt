ghost use Rattle.std.specs.Prelude.{◌≡◌, ◌∷◌, [], All, slice_get, IfOk, IfSome};
ghost use Rattle.std.specs.Option.{option_map};
ghost use Rattle.report_verify.specs.Asked.{query_of};
ghost use Rattle.report_verify.specs.Supported.{item_needs, needs_of};
ghost use Rattle.spec_model.specs.Questions.{IsQuestionOn};
ghost use Rattle.spec_model.specs.declared.question.Question.{Question};
ghost use Rattle.spec_model.specs.declared.question.Question.TheVariants as asked;
ghost use Rattle.unit_questions.specs.Claims.{HoldsInOne};
ghost use Rattle.unit_questions.specs.Facts.{IsFactQuestion};
ghost use Rattle.unit_questions.specs.Steps.{asked_pairs};
ghost use Rattle.unit_questions.specs.Units.{answer_question, question_of};

use crate::answer::answer_question;
use crate::value::value_question;
use currency_base::{AttrId, NoMemory, TupleList};
use report_model::{Current, Verdict};
use spec_model::{Asked, AskedList, Question, Relation, Specification};
use std::alloc::Global;

/// The question for the unit of that number, from 0 on, of a verdict that is right: for an asked pair, that pair alone; for
/// a current value, whether a query without a head has an answer; for an answer, the query with its values in place of the
/// head's variables. None where the verdict has no such unit.
pub fn unit_question(
    alloc: Global,
    spec: &Specification,
    question: &Question,
    verdict: &Verdict,
    unit: u32,
) -> Result<Option<Question>, NoMemory>
    requires question { IsQuestionOn spec.now.relations question.now }
    requires holds { All (λ need. HoldsInOne spec.now.relations question.now need.claim) (needs_of question.now verdict.now) }
    ensures asked { IfOk result (λ one. one ≡
        option_map (λ need. question_of spec.now.relations question.now need.claim)
        (slice_get (needs_of question.now verdict.now) unit)) }
    ensures of_fact { IfOk result (λ one. IfSome one (IsFactQuestion spec.now.relations)) }
{
    let relations = spec.relations();
    question_at(alloc, relations, question, verdict, unit)
}

/// The question for the unit of that number, from 0 on.
fn question_at(
    alloc: Global,
    relations: &[Relation],
    question: &Question,
    verdict: &Verdict,
    unit: u32,
) -> Result<Option<Question>, NoMemory>
    ensures { IfOk result (λ one. one ≡
        option_map (λ need. question_of relations.now question.now need.claim)
        (slice_get (needs_of question.now verdict.now) unit)) }
{
    match verdict {
        Verdict::Certain => pair_at(alloc, question, unit),
        Verdict::Same(items) => value_at(alloc, relations, items.as_slice(), unit),
        Verdict::Answers(tuples) => answer_at(alloc, question, tuples, unit),
        Verdict::Inconsistent => Ok(None),
        Verdict::Consistent => Ok(None),
        Verdict::NotCertain(_) => Ok(None),
        Verdict::NotSame { .. } => Ok(None),
        Verdict::Undecided(_) => Ok(None),
    }
}

/// The question for the asked pair of that number.
fn pair_at(alloc: Global, question: &Question, unit: u32) -> Result<Option<Question>, NoMemory>
    ensures { IfOk result (λ one. one ≡ option_map (λ p. asked.Certain (p ∷ [])) (slice_get (asked_pairs question.now) unit)) }
{
    match question {
        Question::Certain(pairs) => match pairs.as_slice().get(unit as usize) {
            Some(pair) => Ok(Some(pair_question(alloc, *pair)?)),
            None => Ok(None),
        },
        _ => Ok(None),
    }
}

/// Whether that pair holds in every consistent completion.
fn pair_question(alloc: Global, pair: Asked) -> Result<Question, NoMemory>
    ensures { IfOk result (λ one. one ≡ asked.Certain (pair ∷ [])) }
{
    let mut pairs = AskedList::new(alloc);
    pairs.push(pair)?;
    Ok(Question::Certain(pairs))
}

/// The question for the value of that number among those of all items: an item has one value per attribute.
fn value_at(
    alloc: Global,
    relations: &[Relation],
    items: &[Current],
    unit: u32,
) -> Result<Option<Question>, NoMemory>
    ensures { IfOk result (λ one. (q : Question) → one ≡
        option_map (λ need. question_of relations.now q need.claim) (slice_get (item_needs 0 items.now) unit)) }
{
    let mut left = unit as usize;
    for item in items {
        let values = item.values.as_slice();
        if left < values.len() {
            let attr = AttrId(left as u32);
            let asked = value_question(alloc, relations, item.rel, attr, item.ent, &values[left])?;
            return Ok(Some(asked));
        }
        left -= values.len();
    }
    Ok(None)
}

/// The question for the answer of that number.
fn answer_at(
    alloc: Global,
    question: &Question,
    tuples: &TupleList,
    unit: u32,
) -> Result<Option<Question>, NoMemory>
    ensures { IfOk result (λ one. one ≡
        option_map (λ tuple. answer_question tuple (query_of question.now)) (slice_get tuples.now unit)) }
{
    match tuples.as_slice().get(unit as usize) {
        Some(tuple) => Ok(Some(answer_question(alloc, tuple.as_slice(), question)?)),
        None => Ok(None),
    }
}
