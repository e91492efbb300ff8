ghost use Rattle.std.specs.Prelude.{◌≡◌, true, false, Contains, IfOk};
ghost use Rattle.query_model.specs.Answers.{AreAscending, IsBelow};
ghost use Rattle.report_model.specs.declared.verdict.Verdict.TheVariants as verdict;
ghost use Rattle.report_verify.specs.Supported.{IsOneOf};
ghost use Rattle.currency_base.specs.declared.ids.AttrId.{AttrId};
ghost use Rattle.currency_base.specs.declared.ids.EntId.{EntId};
ghost use Rattle.spec_model.specs.Questions.{IsQuestionOn};
ghost use Rattle.spec_model.specs.Spec.{Spec};

use crate::items::are_items_of;
use currency_base::{NoMemory, RelId, Tuple, TupleList, laws_of_tuple_order};
use report_model::{CurrentList, Verdict};
use spec_model::{Asked, Question, Specification};
use std::alloc::Global;
use std::cmp::Ordering;

// Is the verdict one of the question's?
pub(crate) fn is_one_of(
    alloc: Global,
    spec: &Specification,
    question: &Question,
    verdict: &Verdict,
) -> Result<bool, NoMemory>
    requires { IsQuestionOn spec.now.relations question.now }
    ensures is { IfOk result (λ one. one ≡ true → IsOneOf spec.now question.now verdict.now) }
    ensures other { IfOk result (λ one. one ≡ false → IsOneOf spec.now question.now verdict.now → ⊥) }
{
    match verdict {
        Verdict::Inconsistent => Ok(true),
        Verdict::Undecided(_) => Ok(true),
        Verdict::Consistent => Ok(matches!(question, Question::Consistent)),
        Verdict::Certain => Ok(matches!(question, Question::Certain(_))),
        Verdict::NotCertain(pair) => Ok(asks_pair(question, *pair)),
        Verdict::Same(items) => asks_items(alloc, spec, question, items),
        Verdict::NotSame { rel, .. } => Ok(asks_relation(question, *rel)),
        Verdict::Answers(tuples) => Ok(asks_answers(question, tuples)),
    }
}

// Is the pair one of those that are asked about?
fn asks_pair(question: &Question, pair: Asked) -> bool
    ensures is { result ≡ true → (s : Spec) → IsOneOf s question.now (verdict.NotCertain pair) }
    ensures other { result ≡ false → (s : Spec) → IsOneOf s question.now (verdict.NotCertain pair) → ⊥ }
{
    match question {
        Question::Certain(pairs) => pairs.as_slice().contains(&pair),
        _ => false,
    }
}

// Is the relation one of those that are asked about?
fn asks_relation(question: &Question, rel: RelId) -> bool
    ensures is { result ≡ true → (s : Spec) (attr : AttrId) (ent : EntId) → IsOneOf s question.now
        (verdict.NotSame rel attr ent) }
    ensures other { result ≡ false → (s : Spec) (attr : AttrId) (ent : EntId) → IsOneOf s question.now
        (verdict.NotSame rel attr ent) → ⊥ }
{
    match question {
        Question::Same(rels) => rels.as_slice().contains(&rel),
        _ => false,
    }
}

// Are the items those of the relations that are asked about?
fn asks_items(
    alloc: Global,
    spec: &Specification,
    question: &Question,
    items: &CurrentList,
) -> Result<bool, NoMemory>
    requires { IsQuestionOn spec.now.relations question.now }
    ensures is { IfOk result (λ one. one ≡ true → IsOneOf spec.now question.now (verdict.Same items.now)) }
    ensures other { IfOk result (λ one. one ≡ false → IsOneOf spec.now question.now (verdict.Same items.now) → ⊥) }
{
    match question {
        Question::Same(rels) => are_items_of(
            alloc,
            spec.relations(),
            rels.as_slice(),
            items.as_slice(),
        ),
        _ => Ok(false),
    }
}

// Are answers asked for, and do the tuples ascend?
fn asks_answers(question: &Question, tuples: &TupleList) -> bool
    ensures is { result ≡ true → (s : Spec) → IsOneOf s question.now (verdict.Answers tuples.now) }
    ensures other { result ≡ false → (s : Spec) → IsOneOf s question.now (verdict.Answers tuples.now) → ⊥ }
{
    match question {
        Question::Answers(_) => are_ascending(tuples.as_slice()),
        _ => false,
    }
}

// Is each tuple below the next, and so below all that are after it?
fn are_ascending(tuples: &[Tuple]) -> bool
    ensures are { result ≡ true → AreAscending tuples.now }
    ensures other { result ≡ false → AreAscending tuples.now → ⊥ }
{
    laws_of_tuple_order();
    for place in 1..tuples.len() {
        let before = place - 1;
        if !is_below(&tuples[before], &tuples[place]) {
            return false;
        }
    }
    true
}

// Is a tuple below another?
fn is_below(tuple: &Tuple, other: &Tuple) -> bool
    ensures is { result ≡ true → IsBelow tuple.now other.now }
    ensures apart { result ≡ false → IsBelow tuple.now other.now → ⊥ }
{
    tuple.order(other) == Ordering::Less
}
