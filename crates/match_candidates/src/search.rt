ghost use Rattle.std.specs.Prelude.{◌≡◌, ◌∷◌, ◌++◌, [], IfOk, option_map, slice_get};
ghost use Rattle.match_candidates.specs.Found.{Adds};
ghost use Rattle.match_candidates.specs.Meant.{IsLast, IsMeant};
ghost use Rattle.match_candidates.specs.Tables.{AreCandidates};
ghost use Rattle.match_candidates.specs.Ways.{AllStand};

use crate::binding::Binding;
use crate::branching::ways;
use crate::comparisons::passes;
use crate::indexed_table::IndexedTable;
use crate::match_set::MatchSet;
use crate::place_index::Entry;
use crate::rest::Rest;
use currency_base::{EntId, EntList, NoMemory, RelId};
use match_premises::comparisons_hold;
use query_model::{Atom, Match, Test};
use std::alloc::Global;

/// What stays the same in a search: the relations, and the comparisons and the number of the disjunct.
#[derive(Clone, Copy)]
pub(crate) struct Source<'a> {
    pub tables: &'a [IndexedTable<'a>],
    pub tests: &'a [Test],
    pub number: u32,
}

/// Adds the matches that go on from these entities and values: the terms that are left fit the entity there, and the atoms that
/// are left fit further entities. Says whether it stopped since there are too many matches. Takes up values only while no
/// comparison fails.
pub(crate) fn search<'a>(
    alloc: Global,
    source: Source<'a>,
    rest: &Rest<'a>,
    ents: &[EntId],
    values: &Binding<'a>,
    found: &mut MatchSet,
) -> Result<bool, NoMemory>
    requires { AllStand rest.now.at.place rest.now.terms rest.now.atoms values.now }
    ensures { IfOk result (Adds (IsMeant source.entry.tables.now source.entry.tests.now source.entry.number rest.now ents.now
        values.now) found.old found.new) }
{
    if !passes(values, source.tests) {
        return Ok(false);
    }
    if let Some(term) = rest.term() {
        let next = rest.next();
        for way in &ways(alloc, source.tables, rest.at(), term, values)? {
            if search(alloc, source, &next, ents, way, found)? {
                return Ok(true);
            }
        }
        return Ok(false);
    }
    let Some((atom, atoms)) = rest.atom() else {
        return add_match(alloc, source, ents, values, found);
    };
    for entry in candidates(source.tables, atom, values) {
        let first = Rest::of_atom(atom, entry.ent, atoms);
        let more = with_entity(alloc, ents, entry.ent)?;
        if search(alloc, source, &first, &more, values, found)? {
            return Ok(true);
        }
    }
    Ok(false)
}

// Adds the match of these entities and values, if the comparisons hold, and says whether there are too many now.
fn add_match(
    alloc: Global,
    source: Source<'_>,
    ents: &[EntId],
    values: &Binding,
    found: &mut MatchSet,
) -> Result<bool, NoMemory>
    ensures { IfOk result (Adds (IsLast source.entry.tests.now source.entry.number ents.now values.now) found.old found.new) }
{
    let tuple = values.values(alloc)?;
    if !comparisons_hold(tuple.as_slice(), source.tests) {
        return Ok(false);
    }
    let one = Match {
        disjunct: source.number,
        entities: entity_list(alloc, ents)?,
        values: tuple,
    };
    Ok(found.add(one)?)
}

// The entities among which all are that an atom can fit.
fn candidates<'a>(tables: &'a [IndexedTable<'a>], atom: &Atom, values: &Binding) -> &'a [Entry<'a>]
    ensures { AreCandidates tables.now atom.now values.now result.now }
{
    match table_at(tables, atom.relation) {
        Some(table) => table.candidates(atom, values),
        None => &[],
    }
}

// The table of a relation, if it is there.
fn table_at<'a>(tables: &'a [IndexedTable<'a>], rel: RelId) -> Option<&'a IndexedTable<'a>>
    ensures { option_map (λ t. t.now) result ≡ slice_get tables.now rel.0 }
{
    tables.get(rel.0 as usize)
}

// The entities and one more.
fn with_entity(alloc: Global, ents: &[EntId], ent: EntId) -> Result<Vec<EntId>, NoMemory>
    ensures { IfOk result (λ more. more.items ≡ ents.now ++ ent ∷ []) }
{
    let mut more = Vec::with_capacity(alloc, ents.len() + 1)?;
    more.extend_from_slice(ents)?;
    more.push(ent)?;
    Ok(more)
}

// The entities as a list.
fn entity_list(alloc: Global, ents: &[EntId]) -> Result<EntList, NoMemory>
    ensures { IfOk result (λ list. list ≡ ents.now) }
{
    let mut items = Vec::with_capacity(alloc, ents.len())?;
    items.extend_from_slice(ents)?;
    Ok(EntList::from_items(items))
}
