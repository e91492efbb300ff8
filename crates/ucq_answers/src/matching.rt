ghost use Rattle.std.specs.Prelude.{◌≡◌, ◌≤◌, All, List, None, Some, IfOk, length, option_map, replicate};
ghost use Rattle.currency_base.specs.declared.value.Value.{Value};
ghost use Rattle.ucq_answers.specs.Found.{AreEntities, IsEntity, IsMatchBy, IsMatchFound, IsMetFound};
ghost use Rattle.ucq_answers.specs.Kept.{IsPreparedFor};
ghost use Rattle.ucq_answers.specs.Partly.{bind_all, spread};

use crate::binding::Binding;
use crate::fitting::bound;
use crate::match_search::{MatchSearch, collect_matches};
use crate::match_set::MatchSet;
use crate::prepared::PreparedDisjunct;
use crate::relation_index::RelationIndex;
use crate::search::{Search, candidates, find, fit_atom};
use currency_base::{EntId, EntList, ItemList, NoMemory, Tuple};
use query_model::{Atom, Match};
use query_plan::{Conditions, PlannedDisjunct};
use std::alloc::Global;

/// How a tuple is an answer by a disjunct, if it is; `number` is the disjunct's.
pub(crate) fn disjunct_match<'a>(
    alloc: Global,
    relations: &'a [RelationIndex<'a>],
    prepared: &'a PreparedDisjunct<'a>,
    number: u32,
    tuple: &'a Tuple,
) -> Result<Option<Match>, NoMemory>
    requires { IsPreparedFor relations.now prepared.now }
    ensures { IfOk result (IsMatchFound relations.now prepared.now.disjunct number tuple.now) }
{
    let Some(values) = met_values(alloc, relations, prepared, tuple)? else {
        return Ok(None);
    };
    let atoms = prepared.planned().atoms();
    let Some(entities) = entities_of(alloc, relations, atoms, &values)? else {
        return Ok(None);
    };
    let values = values.values(alloc)?;
    Ok(Some(Match {
        disjunct: number,
        entities,
        values,
    }))
}

// Values that meet a disjunct and have a tuple as head.
fn met_values<'a>(
    alloc: Global,
    relations: &'a [RelationIndex<'a>],
    prepared: &'a PreparedDisjunct<'a>,
    tuple: &'a Tuple,
) -> Result<Option<Binding<'a>>, NoMemory>
    requires { IsPreparedFor relations.now prepared.now }
    ensures { IfOk result (IsMetFound relations.now prepared.now.disjunct tuple.now) }
{
    let planned = prepared.planned();
    let conditions = planned.conditions();
    if conditions.is_contrary() {
        return Ok(None);
    }
    if prepared.is_unmatched() {
        return Ok(None);
    }
    let Some(values) = head_values(alloc, planned, conditions, tuple)? else {
        return Ok(None);
    };
    let search = Search {
        relations,
        conditions,
        head: planned.head(),
    };
    let found = find(alloc, &search, prepared.atoms(), &values)?;
    Ok(found)
}

// The values of the head's variables, where they are those of a tuple, and what follows; none, if they cannot be.
fn head_values<'a>(
    alloc: Global,
    planned: &PlannedDisjunct<'a>,
    conditions: &Conditions<'a>,
    tuple: &'a Tuple,
) -> Result<Option<Binding<'a>>, NoMemory>
    ensures { IfOk result (λ values. values ≡ option_map (spread conditions.now.equalities)
        (bind_all (replicate planned.now.vars None) planned.now.head tuple.now)) }
{
    let none = Binding::new(alloc, planned.vars())?;
    let Some(mut values) = bound(none, planned.head(), tuple.as_slice()) else {
        return Ok(None);
    };
    values.spread(conditions.equalities());
    Ok(Some(values))
}

// For each atom the place of a tuple that it fits.
fn entities_of<'a>(
    alloc: Global,
    relations: &'a [RelationIndex<'a>],
    atoms: &'a [Atom],
    values: &Binding<'a>,
) -> Result<Option<EntList>, NoMemory>
    ensures { IfOk result (AreEntities relations.now values.now atoms.now) }
{
    let mut entities = EntList::new(alloc);
    for atom in atoms {
        let Some(ent) = entity_of(alloc, relations, atom, values)? else {
            return Ok(None);
        };
        entities.push(ent)?;
    }
    Ok(Some(entities))
}

// The place of a tuple that an atom fits.
fn entity_of<'a>(
    alloc: Global,
    relations: &'a [RelationIndex<'a>],
    atom: &'a Atom,
    values: &Binding<'a>,
) -> Result<Option<EntId>, NoMemory>
    ensures { IfOk result (IsEntity relations.now values.now atom.now) }
{
    for ent in candidates(relations, &[], atom, values) {
        if let Some(_) = fit_atom(alloc, relations, atom, *ent, values)? {
            return Ok(Some(*ent));
        }
    }
    Ok(None)
}

/// Matches by a disjunct, at most so many, by which a tuple is an answer; `number` is the disjunct's.
pub(crate) fn disjunct_matches<'a>(
    alloc: Global,
    relations: &'a [RelationIndex<'a>],
    prepared: &'a PreparedDisjunct<'a>,
    number: u32,
    tuple: &'a Tuple,
    at_most: usize,
) -> Result<ItemList<Match>, NoMemory>
    ensures each { IfOk result (λ found. All (IsMatchBy relations.now prepared.now.disjunct number tuple.now) found) }
    ensures few { IfOk result (λ found. length found ≤ at_most) }
{
    let planned = prepared.planned();
    let conditions = planned.conditions();
    if conditions.is_contrary() {
        return Ok(ItemList::new(alloc));
    }
    let Some(values) = head_values(alloc, planned, conditions, tuple)? else {
        return Ok(ItemList::new(alloc));
    };
    let sought = MatchSearch {
        search: Search {
            relations,
            conditions,
            head: planned.head(),
        },
        atoms: planned.atoms(),
        number,
    };
    let mut found = MatchSet::new(alloc, at_most);
    let _ = collect_matches(alloc, &sought, prepared.atoms(), &values, &mut found)?;
    Ok(found.into_list())
}
