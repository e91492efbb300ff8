ghost use Rattle.std.specs.Prelude.{◌≡◌, ◌≢◌, ◌<◌, ◌*◌, ◌^◌, ◌≤◌, length, IfOk, OnOk};
ghost use Rattle.currency_base.specs.Literals.{var_of};

use clause_arena::Arena;
use currency_base::NoMemory;
use made_clauses::Source;
use std::alloc::Global;

/// At most so many clauses of three literals over so many variables: those that would have a variable twice are left out.
pub fn clauses(
    alloc: Global,
    source: &mut Source,
    clauses: u32,
    vars: u32,
) -> Result<Arena, NoMemory>
    requires some { 0 < vars }
    requires few { vars ≤ 2 ^ 31 }
    ensures { IfOk result (λ arena. length arena.watchers ≡ 2 * vars) }
{
    let mut arena = Arena::new(alloc, vars)?;
    arena.reserve(clauses as usize, 3 * clauses as usize)?;
    for _ in 0..clauses {
        add(&mut arena, source, vars)?;
    }
    Ok(arena)
}

// One more clause, if its three variables differ.
fn add(arena: &mut Arena, source: &mut Source, vars: u32) -> Result<(), NoMemory>
    requires some { 0 < vars }
    requires few { vars ≤ 2 ^ 31 }
    requires fits { length arena.old.watchers ≡ 2 * vars }
    ensures { length arena.new.watchers ≡ 2 * vars }
{
    let first = source.lit(vars);
    let second = source.lit(vars);
    let third = source.lit(vars);
    if first.var() == second.var() || first.var() == third.var() || second.var() == third.var() {
        return Ok(());
    }
    arena.add(&[first, second, third])?;
    Ok(())
}
