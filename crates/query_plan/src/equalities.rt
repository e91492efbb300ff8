ghost use Rattle.std.specs.Prelude.{◌≡◌, All, List, IfOk, IfSome, OnOk};
ghost use Rattle.query_model.specs.declared.query.Test.{Test};
ghost use Rattle.query_plan.specs.Implied.{IsImplied, IsLed};

use crate::standings::Standings;
use currency_base::NoMemory;
use query_model::TestTerm;
use std::alloc::Global;
use std::marker::Model;

/// That a variable has the value of a side of a comparison. Contracts see both.
#[derive(Drop)]
pub struct Equality<'a> {
    side: &'a TestTerm,
    var: u32,
}

impl<'a> Model for Equality<'a> {
    ghost use Rattle.query_plan.specs.Implied.{Equated};

    ghost Value = { Equated };

    ghost view = { λ e. record { side = e.side.now; var = e.var } };
}

impl<'a> Equality<'a> {
    /// The side.
    pub fn side(&self) -> &'a TestTerm
        ensures { result.now ≡ self.now.side }
    {
        self.side
    }

    /// The variable.
    pub fn var(&self) -> u32
        ensures { result ≡ self.now.var }
    {
        self.var
    }
}

// Of sides that have one value, which gives it to which?
#[derive(Clone, Copy)]
enum Round {
    /// A constant, to each variable.
    Constants,
    /// Each variable, to the first.
    ToFirst,
    /// The first variable, to each.
    FromFirst,
}

/// Which variables have which values wherever comparisons hold, in such an order that, once one of some variables
/// that have one value is known, all are known after one pass: constants, then each variable to the first of those
/// that have its value, then the first to each.
pub(crate) fn equalities<'a>(
    alloc: Global,
    standings: &Standings<'a>,
) -> Result<Vec<Equality<'a>>, NoMemory>
    ensures { IfOk result (λ equalities. All (IsImplied standings.now) equalities.items) }
{
    let mut all = Vec::new(alloc);
    add_round(standings, Round::Constants, &mut all)?;
    add_round(standings, Round::ToFirst, &mut all)?;
    add_round(standings, Round::FromFirst, &mut all)?;
    Ok(all)
}

// Adds the equalities of a round.
fn add_round<'a>(
    standings: &Standings<'a>,
    round: Round,
    all: &mut Vec<Equality<'a>>,
) -> Result<(), NoMemory>
    ensures { All (IsImplied standings.now) all.old.items → OnOk result (All (IsImplied standings.now) all.new.items) }
{
    for number in 0..standings.sides() {
        if let Some(equality) = of_round(standings, round, number) {
            all.push(equality)?;
        }
    }
    Ok(())
}

// The equality of a round for the side of a number, if it is a variable that first stands there.
fn of_round<'a>(standings: &Standings<'a>, round: Round, number: usize) -> Option<Equality<'a>>
    ensures { IfSome result (IsImplied standings.now) }
{
    if !is_first(standings, number) {
        return None;
    }
    match (round, constant_of(standings, number)) {
        (Round::Constants, Some(constant)) => between(standings, constant, number),
        (Round::ToFirst, None) => between(standings, number, leader(standings, number)),
        (Round::FromFirst, None) => between(standings, leader(standings, number), number),
        _ => None,
    }
}

// That the variable of a number has the value of the side of another, where it is not that very side.
fn between<'a>(standings: &Standings<'a>, from: usize, to: usize) -> Option<Equality<'a>>
    ensures { IfSome result (IsImplied standings.now) }
{
    if from == to || !standings.are_equal(from, to) {
        return None;
    }
    let side = standings.side(from)?;
    match standings.side(to)? {
        TestTerm::Var(var) => Some(Equality { side, var: *var }),
        TestTerm::Constant(_) => None,
    }
}

// Is the side of this number a variable that stands at none before it?
fn is_first(standings: &Standings, number: usize) -> bool {
    for earlier in 0..number {
        if is_same_variable(standings, earlier, number) {
            return false;
        }
    }
    true
}

// Are two sides one variable?
fn is_same_variable(standings: &Standings, a: usize, b: usize) -> bool {
    match (standings.side(a), standings.side(b)) {
        (Some(TestTerm::Var(one)), Some(TestTerm::Var(other))) => *one == *other,
        _ => false,
    }
}

// A side that is a constant and has the value of this one.
fn constant_of(standings: &Standings, number: usize) -> Option<usize> {
    for place in 0..standings.sides() {
        if is_constant(standings, place) && standings.are_equal(place, number) {
            return Some(place);
        }
    }
    None
}

// Is a side a constant?
fn is_constant(standings: &Standings, number: usize) -> bool {
    match standings.side(number) {
        Some(TestTerm::Constant(_)) => true,
        _ => false,
    }
}

// The first side that has the value of this one: this one itself, if there is none before it.
fn leader(standings: &Standings, number: usize) -> usize {
    for earlier in 0..number {
        if standings.are_equal(earlier, number) {
            return earlier;
        }
    }
    number
}

/// The variable whose value a variable has: of variables that have one value the same for all.
pub(crate) fn leader_of(equalities: &[Equality], var: u32) -> u32
    ensures { (tests : List Test) → All (IsImplied tests) equalities.now → IsLed tests var result }
{
    for equality in equalities {
        if let Some(led) = led_by(equality, var) {
            return led;
        }
    }
    var
}

// The variable of an equality, if it or its side is this one.
fn led_by(equality: &Equality, var: u32) -> Option<u32>
    ensures { IfSome result (λ led. (tests : List Test) → IsImplied tests equality.now → IsLed tests var led) }
{
    if equality.var == var {
        return Some(var);
    }
    match equality.side {
        TestTerm::Var(side) => one_led(*side, var, equality.var),
        TestTerm::Constant(_) => None,
    }
}

// What a variable is led to, if it is this one.
fn one_led(side: u32, var: u32, led: u32) -> Option<u32>
    ensures { IfSome result (λ to. (side ≡ var) × (to ≡ led)) }
{
    if side == var { Some(led) } else { None }
}
