ghost use Rattle.std.specs.Prelude.{◌≡◌, ◌≢◌, ◌≤◌, ℕ, List, IfErr, IfOk, IfSome};
ghost use Rattle.bound_spec.specs.Growth.{IsWithinLimits};
ghost use Rattle.command_stages.specs.Named.{IsDetermined, IsReadFault, IsReadFaultOf};
ghost use Rattle.currency_edge.specs.Fault.{Rose};
ghost use Rattle.spec_model.specs.Questions.{IsQuestionOn};
ghost use Rattle.explain_command.specs.Explained.{IsExplainDocumentDue, IsExplainDue, IsExplainPrinted, IsExplanationOf};
ghost use Rattle.explain_command.specs.Explained.{explain_said};

use crate::telling::printed_explained;
use bound_spec::is_specification;
use command_stages::{Done, Trouble, read_specification, read_the_question};
use core_explain::explain;
use currency_edge::Shelf;
use program_words::Explain;
use search_logs::completions_are_writable;
use solver_guides::Guides;
use spec_model::{Question, Specification};
use std::alloc::Global;

// The job of `explain`: what explains the unit, as a text.
fn reply(
    alloc: Global,
    spec: &Specification,
    question: &Question,
    asked: Explain<'_>,
    guides: &mut Guides,
) -> Result<Done, Trouble>
    requires within { IsWithinLimits spec.now }
    requires question { IsQuestionOn spec.now.relations question.now }
    requires unit { 1 ≤ asked.unit }
    ensures job { IsDetermined result → IsExplanationOf spec.now (explain_said asked.entry) question.now result }
    ensures inside { IsReadFault result → ⊥ }
    ensures not_words { IfErr result (λ e. e ≢ Trouble.Words) }
{
    is_specification(spec);
    completions_are_writable();
    match explain(alloc, spec, question, asked.unit - 1, asked.budget, guides) {
        Ok(explained) => printed_explained(alloc, spec, asked.unit, &explained),
        Err(_) => Err(Trouble::NoMemory),
    }
}

/// All stages of `explain`.
pub fn explain_documents<S: Shelf>(
    alloc: Global,
    shelf: &mut S,
    asked: Explain<'_>,
    guides: &mut Guides,
) -> Result<Done, Trouble>
    requires budget { asked.budget ≤ 10000000 }
    requires unit { 1 ≤ asked.unit }
    ensures later { S.faults shelf.old ≤ S.faults shelf.new }
    ensures due { IsDetermined result → IfSome (S.texts shelf.old) (λ told. IsExplainDue told (explain_said asked.entry) result) }
    ensures printed { IfOk result (λ done. IfSome (S.texts shelf.old) (λ told. IsExplainPrinted told (explain_said asked.entry)
        done.text done.ending)) }
    ensures read_fault { IsReadFault result → Rose (S.faults shelf.old) (S.faults shelf.new) }
    ensures unread { (n : List ℕ) → IsReadFaultOf result n
        → IfSome (S.texts shelf.old) (λ told. IsExplainDocumentDue told (explain_said asked.entry) n) }
    ensures not_words { IfErr result (λ e. e ≢ Trouble.Words) }
{
    let spec = match read_specification(alloc, shelf, asked.spec) {
        Ok(spec) => spec,
        Err(trouble) => return Err(trouble),
    };
    let question = match read_the_question(alloc, shelf, &spec, asked.question) {
        Ok(question) => question,
        Err(trouble) => return Err(trouble),
    };
    reply(alloc, &spec, &question, asked, guides)
}
