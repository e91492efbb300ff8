ghost use Rattle.std.specs.Prelude.{◌≡◌, ◌≢◌, ◌<◌, ◌*◌, ◌^◌, ◌≤◌, [], Some, None, length, slice_get, IfSome};
ghost use Rattle.watch_propagate.specs.WatchRule.{KeepsWatch};
ghost use Rattle.search_trail.specs.Trails.{IsFree};
ghost use Rattle.currency_base.specs.Literals.{var_of};

use crate::random::clauses;
use clause_arena::Arena;
use currency_base::{Lit, NoMemory};
use made_clauses::Source;
use search_trail::{Trail, Values};
use std::alloc::Global;
use watch_propagate::{propagate, watch_rule_is_kept};

/// What a run came to.
#[derive(Clone, Copy, Debug)]
pub struct Made {
    pub variables: u32,
    pub clauses: u32,
    pub implied: u64,
    pub conflicts: u64,
}

// How many clauses there are for each variable.
const DENSITY: u32 = 4;

// A run ends after so many implied literals, or so many descents.
const IMPLIED: u64 = 2_000_000;

const DESCENTS: u32 = 1_000_000;

/// Makes so many random clauses of three literals, four for each variable. Where this is asked, assumes literals and
/// propagates over them, again and again.
pub fn walk(alloc: Global, count: u32, propagates: bool) -> Result<Made, NoMemory> {
    let vars = (count / DENSITY).max(3);
    let mut source = Source::new(1);
    let mut arena = clauses(alloc, &mut source, count, vars)?;
    let mut trail = Trail::new(alloc, vars)?;
    let mut made = Made {
        variables: vars,
        clauses: arena.count(),
        implied: 0,
        conflicts: 0,
    };
    if propagates {
        watch_rule_is_kept();
        descend_often(&mut arena, &mut trail, vars, &mut source, &mut made);
    }
    Ok(made)
}

// Descends from where nothing is assumed, until enough was implied.
fn descend_often(
    arena: &mut Arena,
    trail: &mut Trail,
    vars: u32,
    source: &mut Source,
    made: &mut Made,
)
    requires vars { trail.old.vars ≡ vars }
    requires some { 0 < vars }
    requires fits { length arena.old.watchers ≡ 2 * trail.old.vars }
    requires rule { KeepsWatch arena.old trail.old }
{
    for _ in 0..DESCENTS {
        if made.implied >= IMPLIED {
            return;
        }
        descend(arena, trail, vars, source, made);
        trail.are_entries();
        watch_rule_is_kept();
        trail.undo_to(0);
    }
}

// Assumes literals and propagates, until there is a conflict or no variable is free.
fn descend(arena: &mut Arena, trail: &mut Trail, vars: u32, source: &mut Source, made: &mut Made)
    requires vars { trail.old.vars ≡ vars }
    requires some { 0 < vars }
    requires fits { length arena.old.watchers ≡ 2 * trail.old.vars }
    requires rule { KeepsWatch arena.old trail.old }
    ensures fits { length arena.new.watchers ≡ 2 * trail.new.vars }
    ensures vars { trail.new.vars ≡ trail.old.vars }
    ensures rule { KeepsWatch arena.new trail.new }
{
    for _ in 0..vars {
        if propagate(arena, trail).is_some() {
            made.conflicts = made.conflicts.saturating_add(1);
            break;
        }
        trail.are_entries();
        let Some(lit) = some_free(trail.values(), source) else {
            break;
        };
        watch_rule_is_kept();
        trail.assume(lit);
    }
    made.implied = made
        .implied
        .saturating_add(trail.assigned().len() as u64)
        .saturating_sub(trail.depth() as u64);
}

// A literal of some free variable, if there is one.
fn some_free(values: &Values, source: &mut Source) -> Option<Lit>
    requires some { 0 < length values.now.given }
    requires few { length values.now.given ≤ 2 ^ 31 }
    ensures { IfSome result (λ lit. slice_get values.now.given (var_of lit) ≡ Some None) }
{
    let tried = source.lit(values.len());
    if values.value(tried.var()).is_none() {
        return Some(tried);
    }
    let first = values.first_free()?;
    Some(Lit::new(first, tried.negative()))
}
