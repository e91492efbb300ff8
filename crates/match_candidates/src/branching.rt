ghost use Rattle.std.specs.Prelude.{◌≡◌, ◌<◌, ◌∷◌, [], if◌then◌else◌, Some, IfOk, length, map, slice_get, slice_set};
ghost use Rattle.match_candidates.specs.Places.{has_at};
ghost use Rattle.match_candidates.specs.Ways.{AreChoices, AreWays, IsEachWay};

use crate::at::At;
use crate::binding::Binding;
use crate::indexed_table::IndexedTable;
use currency_base::{NoMemory, Value};
use query_model::Term;
use std::alloc::Global;

/// The values with which a search goes on from others at a place: the same where the term's value is known and is had there, and
/// where it is not known one for each value that is had there.
pub(crate) fn ways<'a>(
    alloc: Global,
    tables: &'a [IndexedTable<'a>],
    at: At,
    term: &Term,
    values: &Binding<'a>,
) -> Result<Vec<Binding<'a>>, NoMemory>
    ensures { IfOk result (λ ways. AreWays tables.now at values.now term.now ways.items) }
{
    match term {
        Term::Any => same_if(alloc, values, true),
        Term::Constant(value) => same_if(alloc, values, has(tables, at, value)),
        Term::Var(var) => {
            if *var as usize >= values.len() {
                return Ok(Vec::new(alloc));
            }
            match values.value(*var) {
                Some(value) => same_if(alloc, values, has(tables, at, value)),
                None => each_way(alloc, tables, at, *var, values),
            }
        }
    }
}

// Is a value had at a place?
fn has(tables: &[IndexedTable], at: At, value: &Value) -> bool
    ensures { result ≡ has_at tables.now at value.now }
{
    match tables.get(at.rel.0 as usize) {
        Some(table) => table.has(at.ent, at.place, value),
        None => false,
    }
}

// The values that are had at a place.
fn choices<'a>(
    alloc: Global,
    tables: &'a [IndexedTable<'a>],
    at: At,
) -> Result<Vec<&'a Value>, NoMemory>
    ensures { IfOk result (λ list. AreChoices (slice_get tables.now at.rel.0) at.ent at.place (map (λ v. v.now) list.items)) }
{
    match tables.get(at.rel.0 as usize) {
        Some(table) => table.choices(alloc, at.ent, at.place),
        None => Ok(Vec::new(alloc)),
    }
}

// The same values, if they are wanted.
fn same_if<'a>(
    alloc: Global,
    values: &Binding<'a>,
    wanted: bool,
) -> Result<Vec<Binding<'a>>, NoMemory>
    ensures { IfOk result (λ ways. ways.items ≡ (if wanted then values.now ∷ [] else [])) }
{
    let mut ways = Vec::new(alloc);
    if wanted {
        ways.push(values.duplicate(alloc)?)?;
    }
    Ok(ways)
}

// The values with each that is had at a place for a variable.
fn each_way<'a>(
    alloc: Global,
    tables: &'a [IndexedTable<'a>],
    at: At,
    var: u32,
    values: &Binding<'a>,
) -> Result<Vec<Binding<'a>>, NoMemory>
    requires { var < length values.now }
    ensures { IfOk result (λ ways. IsEachWay tables.now at values.now var ways.items) }
{
    let list = choices(alloc, tables, at)?;
    with_each(alloc, values, var, &list)
}

// The values with each of these for a variable.
fn with_each<'a>(
    alloc: Global,
    values: &Binding<'a>,
    var: u32,
    list: &[&'a Value],
) -> Result<Vec<Binding<'a>>, NoMemory>
    requires { var < length values.now }
    ensures { IfOk result (λ ways. ways.items ≡ map (λ v. slice_set values.now var (Some v.now)) list.now) }
{
    let mut ways = Vec::new(alloc);
    for value in list {
        ways.push(values.with(alloc, var, *value)?)?;
    }
    Ok(ways)
}
