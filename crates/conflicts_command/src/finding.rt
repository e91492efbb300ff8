ghost use Rattle.std.specs.Prelude.{◌≢◌, ℕ, List, IfErr, ◌≤◌, IfOk, IfSome};
ghost use Rattle.bound_spec.specs.Growth.{IsWithinLimits};
ghost use Rattle.command_stages.specs.Documents.{IsSpecDocumentDue};
ghost use Rattle.command_stages.specs.Named.{IsDetermined, IsReadFault, IsReadFaultOf};
ghost use Rattle.currency_edge.specs.Fault.{Rose};
ghost use Rattle.conflicts_command.specs.Found.{AreConflictsPrinted, IsConflictsDue, IsConflictsFound, conflicts_said};

use crate::telling::printed_found;
use bound_spec::is_specification;
use command_stages::{Done, Trouble, read_specification};
use currency_edge::Shelf;
use program_words::Conflicts;
use solver_guides::Guides;
use spec_model::Specification;
use std::alloc::Global;

// The job of `conflicts`: the inconsistent parts with what explains them, as a text.
fn printed_conflicts(
    alloc: Global,
    spec: &Specification,
    asked: Conflicts<'_>,
    guides: &mut Guides,
) -> Result<Done, Trouble>
    requires within { IsWithinLimits spec.now }
    ensures job { IsDetermined result → IsConflictsFound spec.now (conflicts_said asked.entry) result }
    ensures inside { IsReadFault result → ⊥ }
    ensures not_words { IfErr result (λ e. e ≢ Trouble.Words) }
{
    is_specification(spec);
    match part_conflicts::conflicts(alloc, spec, asked.budget, guides) {
        Ok(found) => printed_found(alloc, &found),
        Err(_) => Err(Trouble::NoMemory),
    }
}

/// All stages of `conflicts`.
pub fn conflicts_document<S: Shelf>(
    alloc: Global,
    shelf: &mut S,
    asked: Conflicts<'_>,
    guides: &mut Guides,
) -> Result<Done, Trouble>
    requires budget { asked.budget ≤ 10000000 }
    ensures later { S.faults shelf.old ≤ S.faults shelf.new }
    ensures due { IsDetermined result → IfSome (S.texts shelf.old)
        (λ told. IsConflictsDue told (conflicts_said asked.entry) result) }
    ensures printed { IfOk result (λ done. IfSome (S.texts shelf.old)
        (λ told. AreConflictsPrinted told (conflicts_said asked.entry) done.text done.ending)) }
    ensures read_fault { IsReadFault result → Rose (S.faults shelf.old) (S.faults shelf.new) }
    ensures unread { (n : List ℕ) → IsReadFaultOf result n
        → IfSome (S.texts shelf.old) (λ told. IsSpecDocumentDue told (conflicts_said asked.entry).spec n) }
    ensures not_words { IfErr result (λ e. e ≢ Trouble.Words) }
{
    match read_specification(alloc, shelf, asked.spec) {
        Ok(spec) => printed_conflicts(alloc, &spec, asked, guides),
        Err(trouble) => Err(trouble),
    }
}
