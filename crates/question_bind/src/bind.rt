ghost use Rattle.std.specs.Prelude.{◌≡◌, ◌≤◌, ℕ, List, IfOk, IfSome};
ghost use Rattle.currency_edge.specs.Fault.{Rose};
ghost use Rattle.bind_faults.specs.Faults.{IsDetermined, IsReadFault, IsReadFaultOf};
ghost use Rattle.spec_model.specs.Questions.{IsQuestionOn};
ghost use Rattle.question_bind.specs.Bound.{AskAlike, IsQuestionBound, IsQuestionTableDue};

use crate::answers::bind_answers;
use crate::certain::bind_certain;
use crate::same::bind_same;
use bind_faults::BindFault;
use currency_edge::Shelf;
use question_syntax::QuestionTree;
use spec_model::{Question, Specification};
use std::alloc::Global;

/// The question that a tree says of a specification, with the tables that it names. The first check that
/// fails is the answer.
///
/// Of a question on pairs, the parts are gone over together where one table or none is named, and else one
/// after another. Each step goes over all of these parts before the next: an unknown relation is refused,
/// or an unknown attribute that a text says; then what is wrong with a table's document, or above limit 2;
/// then the first record whose attribute is unknown, the first unknown row, and the first rows that are
/// one row or of two entities. More than 10,000,000 pairs so far are then above limit 12. At last the word
/// `certain` is refused where no pair is asked about.
///
/// Of a question on relations, the first unknown name is refused, and then the first whose relation stands
/// before.
///
/// Of a query, each check goes over the whole query before the next: an unknown relation is refused; then
/// an atom that has not one place more than its relation has attributes, or what is of two kinds; then what
/// is above limit 12; then a variable of the head that stands in no atom of some disjunct; then a variable
/// of a comparison that stands in no atom of its disjunct.
pub fn bind_question<S: Shelf>(
    alloc: Global,
    spec: &Specification,
    tree: &QuestionTree,
    shelf: &mut S,
) -> Result<Question, BindFault>
    ensures kept { S.texts shelf.new ≡ S.texts shelf.old }
    ensures later { S.faults shelf.old ≤ S.faults shelf.new }
    ensures bound { IsDetermined result → IfSome (S.texts shelf.old) (λ told. IsQuestionBound told spec.now.relations
        tree.now result) }
    ensures fits { IfOk result (IsQuestionOn spec.now.relations) }
    ensures alike { IfOk result (AskAlike tree.now) }
    ensures read_fault { IsReadFault result → Rose (S.faults shelf.old) (S.faults shelf.new) }
    ensures table_due { (name : List ℕ) → IsReadFaultOf result name
        → IfSome (S.texts shelf.old) (λ told. IsQuestionTableDue told spec.now.relations tree.now name) }
{
    match tree {
        QuestionTree::Consistent { .. } => Ok(Question::Consistent),
        QuestionTree::Certain { line, asked } => {
            bind_certain(alloc, spec, *line, asked.as_slice(), shelf)
        }
        QuestionTree::Same { relations, .. } => bind_same(alloc, spec, relations.as_slice()),
        QuestionTree::Answers(query) => bind_answers(alloc, spec, query),
    }
}
