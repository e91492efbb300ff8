ghost use Rattle.std.specs.Prelude.{◌≢◌, ◌≤◌, ℕ, List, IfErr, IfOk, IfSome};
ghost use Rattle.answer_tables.specs.Asked.{IsTableDocumentDue, table_said};
ghost use Rattle.bound_spec.specs.Growth.{IsWithinLimits};
ghost use Rattle.certain_table.specs.Table.{IsCertainTableDue, IsCertainTableOf, IsCertainTablePrinted};
ghost use Rattle.command_stages.specs.Named.{IsDetermined, IsReadFault, IsReadFaultOf};
ghost use Rattle.currency_edge.specs.Fault.{Rose};
ghost use Rattle.spec_model.specs.Questions.{IsQuestionOn};

use crate::telling::printed_table;
use answer_tables::{AskedQuery, read_query};
use answer_texts::report_on;
use command_stages::{Done, Trouble};
use currency_edge::Shelf;
use program_words::AnswerTable;
use solver_guides::Guides;
use std::alloc::Global;

// The job of `ask --csv`: the certain answers, as a text.
fn reply(
    alloc: Global,
    read: &AskedQuery,
    budget: u64,
    guides: &mut Guides,
) -> Result<Done, Trouble>
    requires within { IsWithinLimits read.now.spec }
    requires question { IsQuestionOn read.now.spec.relations read.now.question }
    ensures job { IsDetermined result → IsCertainTableOf budget read.now.spec read.now.question read.now.query result }
    ensures inside { IsReadFault result → ⊥ }
    ensures not_words { IfErr result (λ e. e ≢ Trouble.Words) }
{
    match report_on(alloc, &read.spec, &read.question, budget, guides) {
        Ok(report) => printed_table(alloc, &read.spec, &read.query, &report),
        Err(trouble) => Err(trouble),
    }
}

/// All stages of `ask --csv`.
pub fn certain_documents<S: Shelf>(
    alloc: Global,
    shelf: &mut S,
    asked: AnswerTable<'_>,
    guides: &mut Guides,
) -> Result<Done, Trouble>
    requires budget { asked.budget ≤ 10000000 }
    ensures later { S.faults shelf.old ≤ S.faults shelf.new }
    ensures due { IsDetermined result → IfSome (S.texts shelf.old)
        (λ told. IsCertainTableDue told (table_said asked.entry) result) }
    ensures printed { IfOk result (λ done. IfSome (S.texts shelf.old)
        (λ told. IsCertainTablePrinted told (table_said asked.entry) done.text done.ending)) }
    ensures read_fault { IsReadFault result → Rose (S.faults shelf.old) (S.faults shelf.new) }
    ensures unread { (n : List ℕ) → IsReadFaultOf result n
        → IfSome (S.texts shelf.old) (λ told. IsTableDocumentDue told (table_said asked.entry) n) }
    ensures not_words { IfErr result (λ e. e ≢ Trouble.Words) }
{
    match read_query(alloc, shelf, asked) {
        Ok(read) => reply(alloc, &read, asked.budget, guides),
        Err(trouble) => Err(trouble),
    }
}
