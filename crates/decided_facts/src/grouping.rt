//! Facts by the smallest parts of which they speak. Nothing hangs on which these are but how soon facts are decided.

ghost use Rattle.std.specs.Prelude.{◌≤◌, length};
ghost use Rattle.entity_ties.specs.Labels.{AreTies};

use crate::task::Task;
use currency_base::{NoMemory, RelId, RowId};
use entity_ties::Ties;
use match_premises::Premise;
use posed_facts::Fact;
use spec_model::Specification;
use std::alloc::Global;

/// The number of a part, and the place of a fact.
pub(crate) type Key = [u32; 2];

/// The facts each of which speaks of one part, by part.
pub(crate) fn by_part(alloc: Global, task: &Task<'_>, ties: &Ties) -> Result<Vec<Key>, NoMemory>
    requires { AreTies task.now.spec.now ties.now }
{
    let mut keys = Vec::new(alloc);
    for place in 0..task.facts.len() {
        if let Ok(number) = u32::try_from(place) {
            if let Some(part) = part_of(task.spec, ties, &task.facts[place]) {
                keys.push([part, number])?;
            }
        }
    }
    keys.sort_unstable();
    Ok(keys)
}

/// Where the keys of a part end that begin at a place.
pub(crate) fn end_of(keys: &[Key], start: usize, part: u32) -> usize
    requires { start ≤ length keys.now }
    ensures least { start ≤ result }
    ensures within { result ≤ length keys.now }
{
    for place in start..keys.len() {
        if keys[place][0] != part {
            return place;
        }
    }
    keys.len()
}

/// The part of which a fact speaks, if it is one.
fn part_of(spec: &Specification, ties: &Ties, fact: &Fact) -> Option<u32>
    requires { AreTies spec.now ties.now }
{
    match fact {
        Fact::Before(asked) => part_of_row(spec, ties, asked.rel, asked.pair.earlier),
        Fact::Current(claim) => part_of_row(spec, ties, claim.rel, claim.row),
        Fact::Lacks(claims) => part_of_all(spec, ties, claims.as_slice()),
    }
}

/// The part of the rows of claims, if it is one.
fn part_of_all(spec: &Specification, ties: &Ties, claims: &[Premise]) -> Option<u32>
    requires { AreTies spec.now ties.now }
{
    let first = claims.first()?;
    let part = part_of_row(spec, ties, first.rel, first.row)?;
    for claim in claims {
        if part_of_row(spec, ties, claim.rel, claim.row)? != part {
            return None;
        }
    }
    Some(part)
}

/// The part of a row, if it is there.
fn part_of_row(spec: &Specification, ties: &Ties, rel: RelId, row: RowId) -> Option<u32>
    requires { AreTies spec.now ties.now }
{
    let relation = spec.relations().get(rel.0 as usize)?;
    if row.0 as usize >= relation.rows.len() {
        return None;
    }
    Some(ties.part_of(rel, relation.rows.row(row).entity))
}
