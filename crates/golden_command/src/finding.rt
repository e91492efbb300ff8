ghost use Rattle.std.specs.Prelude.{◌≡◌, ◌≢◌, ℕ, List, IfErr, ◌≤◌, IfOk, IfSome, Some};
ghost use Rattle.bound_spec.specs.Growth.{IsWithinLimits};
ghost use Rattle.command_stages.specs.Documents.{IsSpecDocumentDue};
ghost use Rattle.command_stages.specs.Named.{IsDetermined, IsReadFault, IsReadFaultOf};
ghost use Rattle.currency_edge.specs.Fault.{Rose};
ghost use Rattle.golden_command.specs.Asked.{golden_said, relation_named};
ghost use Rattle.golden_command.specs.Golden.{IsGoldenDue, IsGoldenPrinted, IsOutcomeOf};

use crate::asked::{column_of, relation_named};
use crate::telling::printed_golden;
use bound_spec::is_specification;
use command_stages::{Done, ReadSpec, Trouble, read_with_tree, refused};
use currency_base::{ErrorCode, RelId};
use currency_edge::Shelf;
use program_words::Golden;
use solver_guides::Guides;
use std::alloc::Global;

/// The job of `golden`: the records of the relation of the name, as a text.
fn printed_relation(
    alloc: Global,
    read: &ReadSpec,
    asked: Golden<'_>,
    guides: &mut Guides,
) -> Result<Done, Trouble>
    requires within { IsWithinLimits read.now.spec }
    ensures job { IsDetermined result → IsOutcomeOf read.now.tree read.now.spec (golden_said asked.entry) result }
    ensures inside { IsReadFault result → ⊥ }
    ensures not_words { IfErr result (λ e. e ≢ Trouble.Words) }
{
    match relation_named(read.spec.relations(), asked.relation) {
        Some(place) => printed_at(alloc, read, place, asked, guides),
        None => Err(refused(alloc, ErrorCode::UnknownName, "words", 1)),
    }
}

/// The same of the relation at a place.
fn printed_at(
    alloc: Global,
    read: &ReadSpec,
    place: usize,
    asked: Golden<'_>,
    guides: &mut Guides,
) -> Result<Done, Trouble>
    requires within { IsWithinLimits read.now.spec }
    requires named { relation_named read.now.spec.relations asked.relation.now ≡ Some place }
    ensures job { IsDetermined result → IsOutcomeOf read.now.tree read.now.spec (golden_said asked.entry) result }
    ensures inside { IsReadFault result → ⊥ }
    ensures not_words { IfErr result (λ e. e ≢ Trouble.Words) }
{
    is_specification(&read.spec);
    let relation = &read.spec.relations()[place];
    let Ok(column) = column_of(alloc, &read.tree, &relation.name) else {
        return Err(Trouble::NoMemory);
    };
    match golden_values::golden(alloc, &read.spec, RelId(place as u32), asked.budget, guides) {
        Ok(found) => printed_golden(alloc, &read.spec, column, relation, &found),
        Err(_) => Err(Trouble::NoMemory),
    }
}

/// All stages of `golden`.
pub fn golden_document<S: Shelf>(
    alloc: Global,
    shelf: &mut S,
    asked: Golden<'_>,
    guides: &mut Guides,
) -> Result<Done, Trouble>
    requires budget { asked.budget ≤ 10000000 }
    ensures later { S.faults shelf.old ≤ S.faults shelf.new }
    ensures due { IsDetermined result → IfSome (S.texts shelf.old)
        (λ told. IsGoldenDue told (golden_said asked.entry) result) }
    ensures printed { IfOk result (λ done. IfSome (S.texts shelf.old)
        (λ told. IsGoldenPrinted told (golden_said asked.entry) done.text done.ending)) }
    ensures read_fault { IsReadFault result → Rose (S.faults shelf.old) (S.faults shelf.new) }
    ensures unread { (n : List ℕ) → IsReadFaultOf result n
        → IfSome (S.texts shelf.old) (λ told. IsSpecDocumentDue told (golden_said asked.entry).spec n) }
    ensures not_words { IfErr result (λ e. e ≢ Trouble.Words) }
{
    match read_with_tree(alloc, shelf, asked.spec) {
        Ok(read) => printed_relation(alloc, &read, asked, guides),
        Err(trouble) => Err(trouble),
    }
}
