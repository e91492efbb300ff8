ghost use Rattle.std.specs.Prelude.{◌≡◌, ◌<◌, ◌≤◌, ◌^◌, ℕ, All, Contains, Some, None, true, length, replicate, slice_get, slice_set, OnOk, OnErr, IfOk, IfSome, IfNone};
ghost use Rattle.currency_base.specs.Literals.{var_of};
ghost use Rattle.search_trail.specs.Trails.{Ascend, HasNoFree, IsFirstFree, IsScope, is_in_scope, whole_scope};
ghost use Rattle.search_trail.specs.Kept.{freed};

use currency_base::{Lit, NoMemory};
use std::alloc::Global;
use std::marker::Model;

/// The value of each variable, if it has one, and the scope: the variables that a search gives values, ascending.
/// Contracts see both, the values in the order of the variables. A variable takes one byte, and one of the scope four
/// more.
#[derive(Drop)]
pub struct Values {
    given: Vec<Option<bool>>,
    scope: Vec<u32>,
    // the first place of the scope whose variable has no value, or how many there are
    low: usize,
}

impl Model for Values {
    ghost use Rattle.search_trail.specs.Trails.{ScopedValues};
    ghost use Rattle.search_trail.specs.Kept.{AreGiven};

    ghost Value = { ScopedValues };

    ghost view = { λ v. record { given = v.given.items; scope = v.scope.items } };

    ghost invariant = { λ v. AreGiven v.given.items v.scope.items v.low };
}

impl Values {
    /// No variable has a value, and all are of the scope.
    pub(crate) fn new(alloc: Global, vars: u32) -> Result<Values, NoMemory>
        requires { vars ≤ 2 ^ 31 }
        ensures { IfOk result (λ v. v ≡ record { given = replicate vars None; scope = whole_scope vars }) }
    {
        let Ok(given) = Vec::from_elem(alloc, None, vars as usize) else {
            return Err(NoMemory);
        };
        let Ok(scope) = all_of(alloc, vars) else {
            return Err(NoMemory);
        };
        Ok(Values {
            given,
            scope,
            low: 0,
        })
    }

    /// How many variables there are.
    pub fn len(&self) -> u32
        ensures count { result ≡ length self.now.given }
        ensures few { result ≤ 2 ^ 31 }
    {
        self.given.len() as u32
    }

    /// The scope, ascending.
    pub fn scope(&self) -> &[u32]
        ensures value { result.now ≡ self.now.scope }
        ensures within { IsScope (length self.now.given) self.now.scope }
        ensures few { length self.now.given ≤ 2 ^ 31 }
    {
        &self.scope
    }

    /// Is the variable of the scope? Takes the logarithm of the scope's length, and constant time where the scope begins
    /// with all variables up to this one.
    pub fn has(&self, var: u32) -> bool
        ensures { result ≡ is_in_scope self.now.scope var }
    {
        stands_in(&self.scope, var)
    }

    /// The value of a variable, if it has one.
    pub fn value(&self, var: u32) -> Option<bool>
        requires { var < length self.now.given }
        ensures { slice_get self.now.given var ≡ Some result }
    {
        self.given[var as usize]
    }

    /// The first variable of the scope that has no value. Takes constant time: the mark is its place in the scope.
    pub fn first_free(&self) -> Option<u32>
        ensures some { IfSome result (IsFirstFree self.now) }
        ensures none { IfNone result (HasNoFree self.now) }
    {
        if self.low < self.scope.len() {
            Some(self.scope[self.low])
        } else {
            None
        }
    }

    /// Gives a variable a value. The mark moves on over those of the scope that have one.
    pub(crate) fn give(&mut self, var: u32, value: bool)
        requires { var < length self.old.given }
        ensures { self.new ≡ record self.old { given = slice_set self.old.given var (Some value) } }
    {
        self.given[var as usize] = Some(value);
        self.low = first_free_from(&self.given, &self.scope, self.low);
    }

    /// Takes the values of the variables of literals back. The mark goes back to the least of them, by one search in the
    /// scope.
    pub(crate) fn take_back(&mut self, lits: &[Lit])
        requires { All (λ lit. var_of lit < length self.old.given) lits.now }
        ensures { self.new ≡ record self.old { given = freed self.old.given lits.now } }
    {
        let least = free_all(&mut self.given, lits);
        let first = place_from(&self.scope, least);
        self.low = first_free_from(&self.given, &self.scope, self.low.min(first));
    }

    /// Takes another scope in place of this one, and sets the mark, in time in proportion to it. Values stay. A refusal
    /// changes nothing.
    pub(crate) fn focus(&mut self, alloc: Global, vars: &[u32]) -> Result<(), NoMemory>
        requires { IsScope (length self.old.given) vars.now }
        ensures ok { OnOk result (self.new ≡ record self.old { scope = vars.now }) }
        ensures err { OnErr result (self.new ≡ self.old) }
    {
        let Ok(scope) = copy_of(alloc, vars) else {
            return Err(NoMemory);
        };
        self.scope = scope;
        self.low = first_free_from(&self.given, &self.scope, 0);
        Ok(())
    }
}

// All of so many variables.
fn all_of(alloc: Global, vars: u32) -> Result<Vec<u32>, NoMemory>
    ensures { IfOk result (λ scope. scope.items ≡ whole_scope vars) }
{
    let Ok(mut scope) = Vec::with_capacity(alloc, vars as usize) else {
        return Err(NoMemory);
    };
    for var in 0..vars {
        let Ok(()) = scope.push(var) else {
            return Err(NoMemory);
        };
    }
    Ok(scope)
}

// A copy of variables.
fn copy_of(alloc: Global, vars: &[u32]) -> Result<Vec<u32>, NoMemory>
    ensures { IfOk result (λ scope. scope.items ≡ vars.now) }
{
    let mut scope = Vec::new(alloc);
    match scope.extend_from_slice(vars) {
        Ok(()) => Ok(scope),
        Err(_) => Err(NoMemory),
    }
}

// Does a variable stand in a scope? It is looked for at its own place first, where it stands if all before it do.
fn stands_in(scope: &[u32], var: u32) -> bool
    requires { Ascend scope.now }
    ensures { result ≡ is_in_scope scope.now var }
{
    if (var as usize) < scope.len() && scope[var as usize] == var {
        return true;
    }
    scope.binary_search(&var).is_ok()
}

// The first place of a scope whose variable is at least one.
fn place_from(scope: &[u32], var: u32) -> usize
    requires { Ascend scope.now }
    ensures within { result ≤ length scope.now }
    ensures before { (i low : ℕ) → i < result → slice_get scope.now i ≡ Some low → low < var }
{
    scope.partition_point(|low| *low < var)
}

// Takes the values of the variables of literals back. Answers the least of them; where there are none, a number above all.
fn free_all(given: &mut Vec<Option<bool>>, lits: &[Lit]) -> u32
    requires { All (λ lit. var_of lit < length given.old.items) lits.now }
    ensures given { given.new.items ≡ freed given.old.items lits.now }
    ensures least { All (λ lit. result ≤ var_of lit) lits.now }
{
    let mut least = u32::MAX;
    for lit in lits {
        given[lit.var() as usize] = None;
        least = least.min(lit.var());
    }
    least
}

// The first place of a scope, from one on, whose variable has no value; where there is none, how many places there are.
fn first_free_from(given: &[Option<bool>], scope: &[u32], start: usize) -> usize
    requires scope { IsScope (length given.now) scope.now }
    requires start { start ≤ length scope.now }
    ensures after { start ≤ result }
    ensures within { result ≤ length scope.now }
    ensures free { (var : ℕ) → slice_get scope.now result ≡ Some var → slice_get given.now var ≡ Some None }
    ensures passed { (i var : ℕ) → start ≤ i → i < result → slice_get scope.now i ≡ Some var
        → slice_get given.now var ≡ Some None → ⊥ }
{
    for place in start..scope.len() {
        if given[scope[place] as usize].is_none() {
            return place;
        }
    }
    scope.len()
}
