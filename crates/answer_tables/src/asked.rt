//! The stages up to the query.

ghost use Rattle.std.specs.Prelude.{◌≡◌, ◌≢◌, ◌≤◌, ℕ, List, IfErr, IfOk, IfSome, MatchResult, Ok, Err};
ghost use Rattle.answer_tables.specs.Asked.{AreParts, AsksNothing, IsQueryRead, IsTableDocumentDue, IsTrouble};
ghost use Rattle.answer_tables.specs.Asked.{query_asked, table_said};
ghost use Rattle.bound_spec.specs.Growth.{IsWithinLimits};
ghost use Rattle.command_stages.specs.Named.{IsDeterminedTrouble, IsReadFault, IsReadFaultOf};
ghost use Rattle.currency_edge.specs.Fault.{Rose};
ghost use Rattle.question_bind.specs.Bound.{AsksQuery};
ghost use Rattle.spec_model.specs.Questions.{IsQuestionOn};

use command_stages::{ReadQuestion, Trouble, read_question_with_tree, read_specification, refused};
use currency_base::ErrorCode;
use currency_edge::Shelf;
use program_words::AnswerTable;
use question_syntax::{QueryTree, QuestionTree};
use spec_model::{Question, Specification};
use std::alloc::Global;

/// A specification, a question on it that asks a query, and the query as the text has it.
#[derive(Drop)]
pub struct AskedQuery {
    pub spec: Specification,
    pub question: Question,
    pub query: QueryTree,
}

/// The query that a question asks, or the line of the first word of one that asks none.
fn query_asked(tree: QuestionTree) -> Result<QueryTree, u32>
    ensures { result ≡ query_asked tree }
{
    match tree {
        QuestionTree::Consistent { line } => Err(line),
        QuestionTree::Certain { line, .. } => Err(line),
        QuestionTree::Same { line, .. } => Err(line),
        QuestionTree::Answers(query) => Ok(query),
    }
}

/// The query of a question that is read, with its specification; or the refusal of one that asks none.
fn with_query(
    alloc: Global,
    spec: Specification,
    read: ReadQuestion,
    name: &str,
) -> Result<AskedQuery, Trouble>
    ensures parts { IfOk result (λ r. AreParts spec read.tree read.question r.spec r.question r.query) }
    ensures none { IfErr result (λ e. IsDeterminedTrouble e → AsksNothing read.tree name.now e) }
    ensures inside { IsReadFault result → ⊥ }
    ensures not_words { IfErr result (λ e. e ≢ Trouble.Words) }
{
    let ReadQuestion { tree, question } = read;
    match query_asked(tree) {
        Ok(query) => Ok(AskedQuery {
            spec,
            question,
            query,
        }),
        Err(line) => Err(refused(alloc, ErrorCode::Mismatch, name, line)),
    }
}

/// The specification and the query of a question on it. A question that asks none is refused at its first word.
pub fn read_query<S: Shelf>(
    alloc: Global,
    shelf: &mut S,
    asked: AnswerTable<'_>,
) -> Result<AskedQuery, Trouble>
    ensures later { S.faults shelf.old ≤ S.faults shelf.new }
    ensures read { IfOk result (λ r. IfSome (S.texts shelf.old)
        (λ told. IsQueryRead told (table_said asked.entry) r.spec r.question r.query)) }
    ensures refused { IfErr result (λ e. IsDeterminedTrouble e → IfSome (S.texts shelf.old)
        (λ told. IsTrouble told (table_said asked.entry) e)) }
    ensures within { IfOk result (λ r. IsWithinLimits r.spec) }
    ensures fits { IfOk result (λ r. IsQuestionOn r.spec.relations r.question) }
    ensures asks { IfOk result (λ r. AsksQuery r.question) }
    ensures read_fault { IsReadFault result → Rose (S.faults shelf.old) (S.faults shelf.new) }
    ensures unread { (n : List ℕ) → IsReadFaultOf result n
        → IfSome (S.texts shelf.old) (λ told. IsTableDocumentDue told (table_said asked.entry) n) }
    ensures not_words { IfErr result (λ e. e ≢ Trouble.Words) }
{
    let spec = match read_specification(alloc, shelf, asked.spec) {
        Ok(spec) => spec,
        Err(trouble) => return Err(trouble),
    };
    match read_question_with_tree(alloc, shelf, &spec, asked.question) {
        Ok(read) => with_query(alloc, spec, read, asked.question),
        Err(trouble) => Err(trouble),
    }
}
