ghost use Rattle.std.specs.Prelude.{◌≡◌, ◌<◌, ◌≤◌, ◌^◌, IfNone, IfOk, IfSome, length, All};
ghost use Rattle.spec_model.specs.Facts.{AreRelations};
ghost use Rattle.spec_model.specs.Queries.{IsQueryOn};
ghost use Rattle.query_model.specs.Fitting.{IsDisjunct};
ghost use Rattle.match_candidates.specs.Found.{Adds};
ghost use Rattle.match_candidates.specs.Matches.{AreMatches, HasMoreMatches};
ghost use Rattle.match_candidates.specs.Meant.{IsMatchBy, IsMatchOf};

use crate::at::At;
use crate::binding::Binding;
use crate::indexed_table::IndexedTable;
use crate::lookups::{lookups_of, places_of};
use crate::match_set::MatchSet;
use crate::relation_table::RelationTable;
use crate::rest::Rest;
use crate::search::{Source, search};
use currency_base::{EntId, ItemList, NoMemory, RelId};
use query_model::{Disjunct, Match, Query};
use spec_model::{Relation, Specification};
use std::alloc::Global;

/// Matches, in their order.
pub type MatchList = ItemList<Match>;

/// All matches of a query that some completion may have, in the order of their disjuncts, then of their entities, and then of
/// their values; none where there are more than `most`. Of these no more than one more than `most` are held at a time. Atom after
/// atom, only entities are gone through that have one of the values that the atom asks for, where one is known.
pub fn matches(
    alloc: Global,
    spec: &Specification,
    query: &Query,
    most: usize,
) -> Result<Option<MatchList>, NoMemory>
    requires { IsQueryOn spec.now.relations query.now }
    ensures listed { IfOk result (λ found. IfSome found (AreMatches spec.now.relations query.now)) }
    ensures few { IfOk result (λ found. IfSome found (λ list. length list ≤ most)) }
    ensures too_many { IfOk result (λ found. IfNone found (HasMoreMatches spec.now.relations query.now most)) }
{
    let tables = tables_of(alloc, spec.relations())?;
    listed(alloc, &tables, query, most)
}

// The same, over the tables of the relations.
fn listed<'a>(
    alloc: Global,
    tables: &'a [RelationTable<'a>],
    query: &Query,
    most: usize,
) -> Result<Option<MatchList>, NoMemory>
    requires { IsQueryOn tables.now query.now }
    ensures listed { IfOk result (λ found. IfSome found (AreMatches tables.now query.now)) }
    ensures few { IfOk result (λ found. IfSome found (λ list. length list ≤ most)) }
    ensures too_many { IfOk result (λ found. IfNone found (HasMoreMatches tables.now query.now most)) }
{
    let indexed = indexed_tables(alloc, &*tables, query)?;
    searched(alloc, &indexed, query, most)
}

// The same, over these tables with indexes.
fn searched<'a, 'b>(
    alloc: Global,
    tables: &'b [IndexedTable<'a>],
    query: &Query,
    most: usize,
) -> Result<Option<MatchList>, NoMemory>
    requires { IsQueryOn tables.now query.now }
    ensures listed { IfOk result (λ found. IfSome found (AreMatches tables.now query.now)) }
    ensures few { IfOk result (λ found. IfSome found (λ list. length list ≤ most)) }
    ensures too_many { IfOk result (λ found. IfNone found (HasMoreMatches tables.now query.now most)) }
{
    let mut found = MatchSet::new(alloc, most);
    let _ = collect(alloc, tables, query.disjuncts.as_slice(), &mut found)?;
    let list = found.into_list(alloc)?;
    if list.len() > most {
        return Ok(None);
    }
    Ok(Some(list))
}

// The tables of relations.
fn tables_of<'a>(
    alloc: Global,
    relations: &'a [Relation],
) -> Result<Vec<RelationTable<'a>>, NoMemory>
    requires { AreRelations relations.now }
    ensures { IfOk result (λ tables. tables.items ≡ relations.now) }
{
    let mut tables = Vec::new(alloc);
    for relation in relations {
        tables.push(RelationTable::new(alloc, relation)?)?;
    }
    Ok(tables)
}

// The tables with indexes at the places at which a query looks values up.
fn indexed_tables<'a>(
    alloc: Global,
    tables: &'a [RelationTable<'a>],
    query: &Query,
) -> Result<Vec<IndexedTable<'a>>, NoMemory>
    ensures { IfOk result (λ indexed. indexed.items ≡ tables.now) }
{
    let looked_up = lookups_of(alloc, query)?;
    let mut indexed = Vec::new(alloc);
    for (relation, table) in tables.iter().enumerate() {
        let places = places_of(alloc, &looked_up, relation)?;
        indexed.push(IndexedTable::new(alloc, table, &places)?)?;
    }
    Ok(indexed)
}

// Adds the matches of all disjuncts, and says whether it stopped since there are too many.
fn collect<'a>(
    alloc: Global,
    tables: &'a [IndexedTable<'a>],
    disjuncts: &'a [Disjunct],
    found: &mut MatchSet,
) -> Result<bool, NoMemory>
    requires few { length disjuncts.now < 2 ^ 32 }
    requires fit { All IsDisjunct disjuncts.now }
    ensures { IfOk result (Adds (IsMatchOf tables.now disjuncts.now) found.old found.new) }
{
    for place in 0..disjuncts.len() {
        if collect_by(alloc, tables, &disjuncts[place], place as u32, found)? {
            return Ok(true);
        }
    }
    Ok(false)
}

// Adds the matches by a disjunct, and says whether it stopped since there are too many.
fn collect_by<'a>(
    alloc: Global,
    tables: &'a [IndexedTable<'a>],
    disjunct: &'a Disjunct,
    number: u32,
    found: &mut MatchSet,
) -> Result<bool, NoMemory>
    requires { IsDisjunct disjunct.now }
    ensures { IfOk result (Adds (IsMatchBy tables.now disjunct.now number) found.old found.new) }
{
    let source = Source {
        tables,
        tests: disjunct.tests.as_slice(),
        number,
    };
    let start = At {
        rel: RelId(0),
        ent: EntId(0),
        place: 0,
    };
    let none = Binding::new(alloc, disjunct.vars)?;
    let atoms = disjunct.atoms.as_slice();
    let rest = Rest::of_atoms(start, atoms);
    search(alloc, source, &rest, &[], &none, found)
}
