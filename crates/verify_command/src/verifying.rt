ghost use Rattle.std.specs.Prelude.{◌≢◌, ℕ, List, IfErr, ◌≤◌, IfOk, IfSome};
ghost use Rattle.command_stages.specs.Named.{IsDetermined, IsReadFault, IsReadFaultOf};
ghost use Rattle.currency_edge.specs.Fault.{Rose};
ghost use Rattle.verify_command.specs.Judged.{IsJudgedDue, IsVerifyDue, IsVerifyDocumentDue, verify_said};
ghost use Rattle.verify_command.specs.Shown.{IsShownRight, IsVerifyPrinted};

use crate::text::accepted;
use command_stages::{Done, Trouble, read_specification, read_the_question};
use currency_edge::Shelf;
use program_words::Verify;
use report_model::VerdictKind;
use report_stages::judge_document;
use std::alloc::Global;

// All stages of `verify`.
fn verify_documents<S: Shelf>(
    alloc: Global,
    shelf: &mut S,
    asked: Verify<'_>,
) -> Result<VerdictKind, Trouble>
    ensures later { S.faults shelf.old ≤ S.faults shelf.new }
    ensures due { IsDetermined result → IfSome (S.texts shelf.old) (λ told. IsJudgedDue told (verify_said asked.entry) result) }
    ensures right { IfOk result (λ kind. IfSome (S.texts shelf.old) (λ told. IsShownRight told (verify_said asked.entry) kind)) }
    ensures read_fault { IsReadFault result → Rose (S.faults shelf.old) (S.faults shelf.new) }
    ensures unread { (n : List ℕ) → IsReadFaultOf result n
        → IfSome (S.texts shelf.old) (λ told. IsVerifyDocumentDue told (verify_said asked.entry) n) }
    ensures not_words { IfErr result (λ e. e ≢ Trouble.Words) }
{
    let spec = match read_specification(alloc, shelf, asked.spec) {
        Ok(spec) => spec,
        Err(trouble) => return Err(trouble),
    };
    let question = match read_the_question(alloc, shelf, &spec, asked.question) {
        Ok(question) => question,
        Err(trouble) => return Err(trouble),
    };
    judge_document(alloc, shelf, asked.report, &spec, &question)
}

/// All stages of `verify`, and the line that tells what the report shows.
pub fn verified<S: Shelf>(alloc: Global, shelf: &mut S, asked: Verify<'_>) -> Result<Done, Trouble>
    ensures later { S.faults shelf.old ≤ S.faults shelf.new }
    ensures due { IsDetermined result → IfSome (S.texts shelf.old) (λ told. IsVerifyDue told (verify_said asked.entry) result) }
    ensures printed { IfOk result (λ done. IfSome (S.texts shelf.old)
        (λ told. IsVerifyPrinted told (verify_said asked.entry) done)) }
    ensures read_fault { IsReadFault result → Rose (S.faults shelf.old) (S.faults shelf.new) }
    ensures unread { (n : List ℕ) → IsReadFaultOf result n
        → IfSome (S.texts shelf.old) (λ told. IsVerifyDocumentDue told (verify_said asked.entry) n) }
    ensures not_words { IfErr result (λ e. e ≢ Trouble.Words) }
{
    match verify_documents(alloc, shelf, asked) {
        Ok(kind) => accepted(alloc, kind),
        Err(trouble) => Err(trouble),
    }
}
