ghost use Rattle.std.specs.Prelude.{◌≢◌, ◌≤◌, ℕ, List, IfErr, IfOk, IfSome};
ghost use Rattle.bound_spec.specs.Growth.{IsWithinLimits};
ghost use Rattle.command_stages.specs.Named.{IsDetermined, IsReadFault, IsReadFaultOf};
ghost use Rattle.currency_edge.specs.Fault.{Rose};
ghost use Rattle.possible_command.specs.Possible.{IsPossibleDocumentDue, IsPossibleDue, IsPossibleOf, IsPossiblePrinted};
ghost use Rattle.possible_command.specs.Possible.{possible_said};
ghost use Rattle.spec_model.specs.Questions.{IsQuestionOn};

use crate::telling::printed_possible;
use bound_spec::is_specification;
use command_stages::{Done, Trouble, read_specification, read_the_question};
use currency_edge::Shelf;
use possible_values::possible;
use program_words::Possible;
use search_logs::completions_are_writable;
use solver_guides::Guides;
use spec_model::{Question, Specification};
use std::alloc::Global;

// The job of `possible`: what may hold, as a text.
fn reply(
    alloc: Global,
    spec: &Specification,
    question: &Question,
    asked: Possible<'_>,
    guides: &mut Guides,
) -> Result<Done, Trouble>
    requires within { IsWithinLimits spec.now }
    requires question { IsQuestionOn spec.now.relations question.now }
    ensures job { IsDetermined result → IsPossibleOf spec.now (possible_said asked.entry) question.now result }
    ensures inside { IsReadFault result → ⊥ }
    ensures not_words { IfErr result (λ e. e ≢ Trouble.Words) }
{
    is_specification(spec);
    completions_are_writable();
    match possible(alloc, spec, question, asked.budget, guides) {
        Ok(found) => printed_possible(alloc, spec, asked, &found, guides),
        Err(_) => Err(Trouble::NoMemory),
    }
}

/// All stages of `possible`.
pub fn possible_documents<S: Shelf>(
    alloc: Global,
    shelf: &mut S,
    asked: Possible<'_>,
    guides: &mut Guides,
) -> Result<Done, Trouble>
    requires budget { asked.budget ≤ 10000000 }
    ensures later { S.faults shelf.old ≤ S.faults shelf.new }
    ensures due { IsDetermined result → IfSome (S.texts shelf.old)
        (λ told. IsPossibleDue told (possible_said asked.entry) result) }
    ensures printed { IfOk result (λ done. IfSome (S.texts shelf.old)
        (λ told. IsPossiblePrinted told (possible_said asked.entry) done.text done.ending)) }
    ensures read_fault { IsReadFault result → Rose (S.faults shelf.old) (S.faults shelf.new) }
    ensures unread { (n : List ℕ) → IsReadFaultOf result n
        → IfSome (S.texts shelf.old) (λ told. IsPossibleDocumentDue told (possible_said asked.entry) n) }
    ensures not_words { IfErr result (λ e. e ≢ Trouble.Words) }
{
    let spec = match read_specification(alloc, shelf, asked.spec) {
        Ok(spec) => spec,
        Err(trouble) => return Err(trouble),
    };
    let question = match read_the_question(alloc, shelf, &spec, asked.question) {
        Ok(question) => question,
        Err(trouble) => return Err(trouble),
    };
    reply(alloc, &spec, &question, asked, guides)
}
