ghost use Rattle.std.specs.Prelude.{◌≡◌, ℕ, [], length, replicate, IfOk};
ghost use Rattle.known_models.specs.Known.{IsKnown};
ghost use Rattle.order_search.specs.Parts.{AreParts, IsParting, parted_of};
ghost use Rattle.order_search.specs.Tied.{AreMembers};
ghost use Rattle.order_search.specs.declared.parting.Tie.TheVariants as tie;

use crate::subject::Subject;
use currency_base::{ItemList, NoMemory};
use known_models::KnownModel;
use std::alloc::Global;
use variable_parts::VariableParts;

/// Where the matches of an answer lie whose axioms are among the steps.
#[derive(Clone, Copy)]
pub(crate) enum Tie {
    /// There are none.
    Loose,
    /// All in this part.
    In(u32),
    /// Not in one part.
    Across,
}

/// The smallest closed parts of a specification with the variables of each, and the model that is known part by part. For each part
/// the variables of the answers whose matches lie in it, ascending, and for each answer where they lie.
#[derive(Drop)]
pub(crate) struct Parting {
    pub parts: VariableParts,
    pub known: KnownModel,
    pub members: ItemList<ItemList<u32>>,
    pub ties: ItemList<Tie>,
}

/// The parts of a specification, of which none is done, where no match is among the steps.
pub(crate) fn none_done(subject: &Subject<'_>, alloc: Global) -> Result<Parting, NoMemory>
    ensures parting { IfOk result (λ p. IsParting subject.now p.parts p.known) }
    ensures members { IfOk result (AreMembers subject.now) }
{
    let parts = subject.parts(alloc)?;
    // (the number of a part is a `u32`; within the limits there are far fewer)
    if parts.count() > 4_294_967_295 {
        return Err(NoMemory);
    }
    let known = nothing_known(subject, alloc, &parts)?;
    let members = no_members(alloc, parts.count())?;
    let ties = all_loose(alloc, subject.answers())?;
    Ok(Parting {
        parts,
        known,
        members,
        ties,
    })
}

// The model that is known before any part is done.
fn nothing_known(
    subject: &Subject<'_>,
    alloc: Global,
    parts: &VariableParts,
) -> Result<KnownModel, NoMemory>
    requires { AreParts subject.now parts.now }
    ensures { IfOk result (λ k. IsKnown (parted_of subject.now parts.now) k) }
{
    match KnownModel::new(alloc, &subject.parted(parts)) {
        Ok(known) => Ok(known),
        Err(error) => Err(error),
    }
}

// For each of so many parts no variable.
fn no_members(alloc: Global, count: usize) -> Result<ItemList<ItemList<u32>>, NoMemory>
    ensures { IfOk result (λ members. members ≡ replicate count []) }
{
    let mut members = ItemList::new(alloc);
    for _part in 0..count {
        members.push(ItemList::new(alloc))?;
    }
    Ok(members)
}

// For each of so many answers that it has no match.
fn all_loose(alloc: Global, count: u32) -> Result<ItemList<Tie>, NoMemory>
    ensures { IfOk result (λ ties. ties ≡ replicate count tie.Loose) }
{
    let mut ties = ItemList::new(alloc);
    for _answer in 0..count {
        ties.push(Tie::Loose)?;
    }
    Ok(ties)
}
