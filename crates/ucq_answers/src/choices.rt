ghost use Rattle.std.specs.Prelude.{IfOk, IfSome};
ghost use Rattle.std.specs.List.{AllZip};
ghost use Rattle.ucq_answers.specs.Found.{AllFitAt, IsOneOf};

use crate::binding::Binding;
use crate::relation_index::RelationIndex;
use crate::search::{candidates, fit_atom};
use currency_base::{EntList, NoMemory};
use query_model::Atom;
use std::alloc::Global;

/// For each atom the places of the tuples that it fits, of each atom no more than so many.
pub(crate) fn choices_of<'a>(
    alloc: Global,
    relations: &'a [RelationIndex<'a>],
    atoms: &'a [Atom],
    values: &Binding<'a>,
    at_most: usize,
) -> Result<Vec<EntList>, NoMemory>
    ensures { IfOk result (λ choices. AllZip (AllFitAt relations.now values.now) atoms.now choices.items) }
{
    let mut choices = Vec::new(alloc);
    for atom in atoms {
        choices.push(fitting(alloc, relations, atom, values, at_most)?)?;
    }
    Ok(choices)
}

// The places of the tuples that an atom fits, no more than so many.
fn fitting<'a>(
    alloc: Global,
    relations: &'a [RelationIndex<'a>],
    atom: &'a Atom,
    values: &Binding<'a>,
    at_most: usize,
) -> Result<EntList, NoMemory>
    ensures { IfOk result (AllFitAt relations.now values.now atom.now) }
{
    let mut ents = EntList::new(alloc);
    for ent in candidates(relations, &[], atom, values) {
        if ents.len() >= at_most {
            return Ok(ents);
        }
        if let Some(_) = fit_atom(alloc, relations, atom, *ent, values)? {
            ents.push(*ent)?;
        }
    }
    Ok(ents)
}

/// One of each of these lists: the choice of this number, if there are so many. Choices of other numbers are others.
pub(crate) fn choice(
    alloc: Global,
    choices: &[EntList],
    number: usize,
) -> Result<Option<EntList>, NoMemory>
    ensures { IfOk result (λ chosen. IfSome chosen (AllZip IsOneOf choices.now)) }
{
    let mut chosen = EntList::new(alloc);
    let mut left = number;
    for ents in choices {
        if ents.len() == 0 {
            return Ok(None);
        }
        chosen.push(*ents.get(left % ents.len()))?;
        left = left / ents.len();
    }
    if left > 0 {
        return Ok(None);
    }
    Ok(Some(chosen))
}
