ghost use Rattle.std.specs.Prelude.{◌≡◌, ◌≢◌, ℕ, List, IfErr, ◌≤◌, IfOk, IfSome, Ok};
ghost use Rattle.currency_edge.specs.Fault.{Rose};
ghost use Rattle.spec_model.specs.Questions.{IsQuestionOn};
ghost use Rattle.question_bind.specs.Bound.{AskAlike, IsQuestionBound};
ghost use Rattle.spec_bind.specs.Bound.{IsSpecBound as IsBound};
ghost use Rattle.bound_spec.specs.Growth.{IsWithinLimits};
ghost use Rattle.command_stages.specs.Stages.{IsSpecTree, IsSpecSaid, IsSpecRead, IsQuestionTree, IsQuestionSaid, IsQuestionRead};
ghost use Rattle.command_stages.specs.Trees.{spec_result, IsTreeOf, question_result, IsQuestionTreeOf};
ghost use Rattle.command_stages.specs.Documents.{IsSaidTableDue, IsSpecDocumentDue, IsQuestionSaidTableDue, IsQuestionDocumentDue};
ghost use Rattle.command_stages.specs.Named.{IsDetermined, IsReadFault, IsReadFaultOf};

use crate::read::{TEXT_BOUND, read_bytes};
use crate::troubles::{of_binding, of_text};
use crate::{ReadQuestion, ReadSpec, Trouble};
use currency_edge::Shelf;
use question_bind::bind_question;
use question_syntax::{QuestionTree, read_question};
use spec_bind::bind_spec;
use spec_model::{Question, Specification};
use spec_syntax::{SpecTree, read_spec};
use std::alloc::Global;

// The tree of a specification's text.
fn spec_tree(alloc: Global, name: &str, bytes: &[u8]) -> Result<SpecTree, Trouble>
    ensures tree { IsDetermined result → IsSpecTree name.now bytes.now result }
    ensures inside { IsReadFault result → ⊥ }
    ensures not_words { IfErr result (λ e. e ≢ Trouble.Words) }
{
    match read_spec(alloc, bytes) {
        Ok(tree) => Ok(tree),
        Err(fault) => Err(of_text(alloc, name, fault)),
    }
}

// The specification that a text says, with the tables that it names and the tree of the text.
fn spec_said<S: Shelf>(
    alloc: Global,
    shelf: &mut S,
    name: &str,
    bytes: &[u8],
) -> Result<ReadSpec, Trouble>
    ensures kept { S.texts shelf.new ≡ S.texts shelf.old }
    ensures later { S.faults shelf.old ≤ S.faults shelf.new }
    ensures said { IsDetermined result → IfSome (S.texts shelf.old)
        (λ told. IsSpecSaid told name.now bytes.now (spec_result result)) }
    ensures tree { IfOk result (λ read. IsSpecTree name.now bytes.now (Ok read.tree)) }
    ensures bound { IfOk result (λ read. IfSome (S.texts shelf.old) (λ told. IsBound told read.tree (Ok read.spec))) }
    ensures read_fault { IsReadFault result → Rose (S.faults shelf.old) (S.faults shelf.new) }
    ensures unread { (n : List ℕ) → IsReadFaultOf result n
        → IfSome (S.texts shelf.old) (λ told. IsSaidTableDue told name.now bytes.now n) }
    ensures within { IfOk result (λ read. IsWithinLimits read.spec) }
    ensures not_words { IfErr result (λ e. e ≢ Trouble.Words) }
{
    let tree = match spec_tree(alloc, name, bytes) {
        Ok(tree) => tree,
        Err(trouble) => return Err(trouble),
    };
    match bind_spec(alloc, &tree, shelf) {
        Ok(spec) => Ok(ReadSpec { tree, spec }),
        Err(fault) => Err(of_binding(alloc, name, fault)),
    }
}

/// The first stage, by which the specification comes with the tree of its text.
pub fn read_with_tree<S: Shelf>(
    alloc: Global,
    shelf: &mut S,
    name: &str,
) -> Result<ReadSpec, Trouble>
    ensures kept { S.texts shelf.new ≡ S.texts shelf.old }
    ensures later { S.faults shelf.old ≤ S.faults shelf.new }
    ensures stage { IsDetermined result → IfSome (S.texts shelf.old) (λ told. IsSpecRead told name.now (spec_result result)) }
    ensures tree { IfOk result (λ read. IfSome (S.texts shelf.old) (λ told. IsTreeOf told name.now read.tree read.spec)) }
    ensures read_fault { IsReadFault result → Rose (S.faults shelf.old) (S.faults shelf.new) }
    ensures unread { (n : List ℕ) → IsReadFaultOf result n
        → IfSome (S.texts shelf.old) (λ told. IsSpecDocumentDue told name.now n) }
    ensures within { IfOk result (λ read. IsWithinLimits read.spec) }
    ensures not_words { IfErr result (λ e. e ≢ Trouble.Words) }
{
    let bytes = read_bytes(alloc, shelf, name, TEXT_BOUND)?;
    spec_said(alloc, shelf, name, bytes.as_slice())
}

/// The first stage: the specification with its tables.
pub fn read_specification<S: Shelf>(
    alloc: Global,
    shelf: &mut S,
    name: &str,
) -> Result<Specification, Trouble>
    ensures kept { S.texts shelf.new ≡ S.texts shelf.old }
    ensures later { S.faults shelf.old ≤ S.faults shelf.new }
    ensures stage { IsDetermined result → IfSome (S.texts shelf.old) (λ told. IsSpecRead told name.now result) }
    ensures read_fault { IsReadFault result → Rose (S.faults shelf.old) (S.faults shelf.new) }
    ensures unread { (n : List ℕ) → IsReadFaultOf result n
        → IfSome (S.texts shelf.old) (λ told. IsSpecDocumentDue told name.now n) }
    ensures within { IfOk result IsWithinLimits }
    ensures not_words { IfErr result (λ e. e ≢ Trouble.Words) }
{
    let ReadSpec { spec, .. } = read_with_tree(alloc, shelf, name)?;
    Ok(spec)
}

// The tree of a question's text.
fn question_tree(alloc: Global, name: &str, bytes: &[u8]) -> Result<QuestionTree, Trouble>
    ensures tree { IsDetermined result → IsQuestionTree name.now bytes.now result }
    ensures inside { IsReadFault result → ⊥ }
    ensures not_words { IfErr result (λ e. e ≢ Trouble.Words) }
{
    match read_question(alloc, bytes) {
        Ok(tree) => Ok(tree),
        Err(fault) => Err(of_text(alloc, name, fault)),
    }
}

// The question that a text says of a specification, with the tables that it names and the tree of the text.
fn question_said<S: Shelf>(
    alloc: Global,
    shelf: &mut S,
    spec: &Specification,
    name: &str,
    bytes: &[u8],
) -> Result<ReadQuestion, Trouble>
    ensures kept { S.texts shelf.new ≡ S.texts shelf.old }
    ensures later { S.faults shelf.old ≤ S.faults shelf.new }
    ensures said { IsDetermined result → IfSome (S.texts shelf.old)
        (λ told. IsQuestionSaid told spec.now.relations name.now bytes.now (question_result result)) }
    ensures tree { IfOk result (λ read. IsQuestionTree name.now bytes.now (Ok read.tree)) }
    ensures bound { IfOk result (λ read. IfSome (S.texts shelf.old)
        (λ told. IsQuestionBound told spec.now.relations read.tree (Ok read.question))) }
    ensures fits { IfOk result (λ read. IsQuestionOn spec.now.relations read.question) }
    ensures alike { IfOk result (λ read. AskAlike read.tree read.question) }
    ensures read_fault { IsReadFault result → Rose (S.faults shelf.old) (S.faults shelf.new) }
    ensures unread { (n : List ℕ) → IsReadFaultOf result n
        → IfSome (S.texts shelf.old) (λ told. IsQuestionSaidTableDue told spec.now.relations name.now bytes.now n) }
    ensures not_words { IfErr result (λ e. e ≢ Trouble.Words) }
{
    let tree = match question_tree(alloc, name, bytes) {
        Ok(tree) => tree,
        Err(trouble) => return Err(trouble),
    };
    match bind_question(alloc, spec, &tree, shelf) {
        Ok(question) => Ok(ReadQuestion { tree, question }),
        Err(fault) => Err(of_binding(alloc, name, fault)),
    }
}

/// The second stage, by which the question comes with the tree of its text.
pub fn read_question_with_tree<S: Shelf>(
    alloc: Global,
    shelf: &mut S,
    spec: &Specification,
    name: &str,
) -> Result<ReadQuestion, Trouble>
    ensures kept { S.texts shelf.new ≡ S.texts shelf.old }
    ensures later { S.faults shelf.old ≤ S.faults shelf.new }
    ensures stage { IsDetermined result → IfSome (S.texts shelf.old)
        (λ told. IsQuestionRead told spec.now.relations name.now (question_result result)) }
    ensures tree { IfOk result (λ read. IfSome (S.texts shelf.old)
        (λ told. IsQuestionTreeOf told spec.now.relations name.now read.tree read.question)) }
    ensures fits { IfOk result (λ read. IsQuestionOn spec.now.relations read.question) }
    ensures alike { IfOk result (λ read. AskAlike read.tree read.question) }
    ensures read_fault { IsReadFault result → Rose (S.faults shelf.old) (S.faults shelf.new) }
    ensures unread { (n : List ℕ) → IsReadFaultOf result n
        → IfSome (S.texts shelf.old) (λ told. IsQuestionDocumentDue told spec.now.relations name.now n) }
    ensures not_words { IfErr result (λ e. e ≢ Trouble.Words) }
{
    let bytes = read_bytes(alloc, shelf, name, TEXT_BOUND)?;
    question_said(alloc, shelf, spec, name, bytes.as_slice())
}

/// The second stage: the question on a specification, with its tables.
pub fn read_the_question<S: Shelf>(
    alloc: Global,
    shelf: &mut S,
    spec: &Specification,
    name: &str,
) -> Result<Question, Trouble>
    ensures kept { S.texts shelf.new ≡ S.texts shelf.old }
    ensures later { S.faults shelf.old ≤ S.faults shelf.new }
    ensures stage { IsDetermined result → IfSome (S.texts shelf.old)
        (λ told. IsQuestionRead told spec.now.relations name.now result) }
    ensures fits { IfOk result (IsQuestionOn spec.now.relations) }
    ensures read_fault { IsReadFault result → Rose (S.faults shelf.old) (S.faults shelf.new) }
    ensures unread { (n : List ℕ) → IsReadFaultOf result n
        → IfSome (S.texts shelf.old) (λ told. IsQuestionDocumentDue told spec.now.relations name.now n) }
    ensures not_words { IfErr result (λ e. e ≢ Trouble.Words) }
{
    let ReadQuestion { question, .. } = read_question_with_tree(alloc, shelf, spec, name)?;
    Ok(question)
}
