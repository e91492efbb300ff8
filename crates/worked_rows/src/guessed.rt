//! First guesses at models, from what is known of some pairs.

ghost use Rattle.std.specs.Prelude.{◌≡◌, ◌≤◌, ◌^◌, IfOk};
ghost use Rattle.order_literals.specs.Numbers.{numbers_of};

use crate::sources::{Source, THREE, specification, wanted};
use currency_base::{Assignment, Lit, NoMemory};
use order_limits::number;
use order_literals::{Numbering, Wanted};
use order_start::start;
use search_trail::Trail;
use spec_model::Specification;
use std::alloc::Global;
use std::test::Fail;

// Three rows of one entity, of which the first and the last have one value.
const ALIKE: Source = Source {
    text: "relation R from \"r.csv\" row id entity eid (a: int);\n",
    tables: &[("r.csv", "id,eid,a\nr1,x,1\nr2,x,2\nr3,x,1\n")],
};

// A specification, of how many relations the current values are wanted, the variables that are known and their values,
// and the variables that are true in the guess.
type Row = (Source, u32, &'static [(u32, bool)], &'static [u32]);

// The pairs of three rows have the numbers 0 (first and second), 1 (first and third) and 2 (second and third). Where
// current values are wanted, 3 to 5 say which row stands last, and those from 6 on which value is current.
const ROWS: &[Row] = &[
    (THREE, 0, &[], &[0, 1, 2]),
    (THREE, 0, &[(1, true)], &[0, 1, 2]),
    // a chain against the order of the rows
    (THREE, 0, &[(0, false), (2, false)], &[]),
    // only the first row waits, for the third one
    (THREE, 0, &[(1, false)], &[2]),
    (THREE, 0, &[(2, false)], &[0, 1]),
    // these go round
    (THREE, 0, &[(0, true), (1, false), (2, true)], &[0, 1, 2]),
    (THREE, 0, &[(0, false), (1, true), (2, false)], &[0, 1, 2]),
    (THREE, 1, &[], &[0, 1, 2, 5, 8]),
    (THREE, 1, &[(2, false)], &[0, 1, 4, 7]),
    (THREE, 1, &[(3, true), (6, true)], &[0, 1, 2, 5, 8]),
    (ALIKE, 1, &[], &[0, 1, 2, 5, 6]),
    (ALIKE, 1, &[(2, false)], &[0, 1, 4, 7]),
];

#[test]
fn guesses_follow_what_is_known(rt: HostRuntime) -> Result<(), Fail> {
    let alloc = rt.alloc();
    for (source, currents, literals, truths) in ROWS {
        let spec = specification(alloc, *source)?;
        let wanted = wanted(alloc, *currents)?;
        let numbering = number(alloc, &spec, &wanted)?;
        let guess = guessed(alloc, &spec, &numbering, &wanted, literals)?;
        for var in 0..guess.vars() {
            assert_eq!(rt; guess.value(var), truths.contains(&var));
        }
    }
    Ok(())
}

// The guess where these variables have these values.
fn guessed(
    alloc: Global,
    spec: &Specification,
    numbering: &Numbering,
    wanted: &Wanted,
    literals: &[(u32, bool)],
) -> Result<Assignment, NoMemory>
    requires { numbering.now ≡ numbers_of spec.now.relations wanted.now }
{
    let trail = known(alloc, numbering.vars(), literals)?;
    start(alloc, spec, numbering, wanted, trail.values(), false)
}

// So many variables, of which these have these values.
fn known(alloc: Global, vars: u32, literals: &[(u32, bool)]) -> Result<Trail, NoMemory>
    requires { vars ≤ 2 ^ 31 }
    ensures { IfOk result (λ trail. trail.vars ≡ vars) }
{
    let mut trail = Trail::new(alloc, vars)?;
    for (var, value) in literals {
        give(&mut trail, *var, *value);
    }
    Ok(trail)
}

// Gives a variable a value, if there is the variable and it has none.
fn give(trail: &mut Trail, var: u32, value: bool)
    requires { trail.old.vars ≤ 2 ^ 31 }
    ensures { trail.new.vars ≡ trail.old.vars }
{
    if var < trail.values().len() && trail.values().value(var).is_none() {
        trail.assume(Lit::new(var, !value));
    }
}
