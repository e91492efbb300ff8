ghost use Rattle.std.specs.Prelude.{◌≡◌, ◌<◌, length, All, Contains, IfOk};
ghost use Rattle.std.specs.Bool.{OnTrue};
ghost use Rattle.query_model.specs.Fitting.{IsDisjunct};
ghost use Rattle.query_plan.specs.Implied.{IsImplied};
ghost use Rattle.query_plan.specs.Plans.{AreSameAtoms};

use crate::atoms::are_same;
use crate::conditions::Conditions;
use crate::equalities::Equality;
use currency_base::{Cmp, NoMemory, RelId};
use query_model::{Atom, Disjunct, Term, Test, TestTerm};
use std::alloc::Global;
use std::cmp::Ordering;
use std::marker::Model;

/// A place of a relation at which values are looked up.
#[derive(Clone, Copy, PartialEq, Eq, PartialOrd, Ord)]
pub struct LookedUp {
    pub relation: RelId,
    pub place: usize,
}

/// An atom to be searched. Contracts see the atom.
#[derive(Drop)]
pub struct Step<'a> {
    atom: &'a Atom,
}

impl<'a> Model for Step<'a> {
    ghost use Rattle.query_model.specs.declared.query.Atom.{Atom};

    ghost Value = { Atom };

    ghost view = { λ s. s.atom.now };
}

impl<'a> Step<'a> {
    /// The atom.
    pub fn atom(&self) -> &'a Atom
        ensures { result.now ≡ self.now }
    {
        self.atom
    }
}

/// A disjunct, what follows of its comparisons, and an order in which its atoms are searched. Contracts see the
/// disjunct.
#[derive(Drop)]
pub struct PlannedDisjunct<'a> {
    disjunct: &'a Disjunct,
    conditions: Conditions<'a>,
    steps: Vec<Step<'a>>,
}

impl<'a> Model for PlannedDisjunct<'a> {
    ghost use Rattle.query_model.specs.declared.query.Disjunct.{Disjunct};
    ghost use Rattle.query_plan.specs.Plans.{IsPlanned};

    ghost Value = { Disjunct };

    ghost view = { λ p. p.disjunct.now };

    ghost invariant = { λ p. IsPlanned p.disjunct.now p.conditions p.steps.items };
}

impl<'a> PlannedDisjunct<'a> {
    /// The plan of a disjunct. Adds the places at which values are looked up in it.
    pub fn new(
        alloc: Global,
        disjunct: &'a Disjunct,
        looked_up: &mut Vec<LookedUp>,
    ) -> Result<PlannedDisjunct<'a>, NoMemory>
        requires { IsDisjunct disjunct.now }
        ensures { IfOk result (λ planned. planned ≡ disjunct.now) }
    {
        let conditions = Conditions::new(alloc, disjunct.tests.as_slice())?;
        let head = known_head(alloc, disjunct)?;
        let steps = planned(alloc, disjunct.atoms.as_slice(), &conditions, &head)?;
        let nothing = vec![in alloc; false; disjunct.vars as usize]?;
        look_up_steps(&steps, &conditions, nothing, looked_up)?;
        look_up_steps(&steps, &conditions, head, looked_up)?;
        Ok(PlannedDisjunct {
            disjunct,
            conditions,
            steps,
        })
    }

    /// How many variables the disjunct has.
    pub fn vars(&self) -> u32
        ensures { result ≡ self.now.vars }
    {
        self.disjunct.vars
    }

    /// The variables whose values are the answer.
    pub fn head(&self) -> &'a [u32]
        ensures { result.now ≡ self.now.head }
    {
        self.disjunct.head.as_slice()
    }

    /// The comparisons, and what follows of them.
    pub fn conditions(&self) -> &Conditions<'a>
        ensures tests { result.now.tests ≡ self.now.tests }
        ensures implied { All (IsImplied result.now.tests) result.now.equalities }
    {
        &self.conditions
    }

    /// The atoms, in the order of the text.
    pub fn atoms(&self) -> &'a [Atom]
        ensures { result.now ≡ self.now.atoms }
    {
        self.disjunct.atoms.as_slice()
    }

    /// The order in which its atoms are searched, those that say the same once: those first that have variables of the
    /// head, and after these each time one that shares most variables with those before it. Where atoms hang together as
    /// a tree each so stands after one that has all variables that it shares with those before it (maximum cardinality
    /// search).
    pub fn order(&self, alloc: Global) -> Result<Vec<Step<'a>>, NoMemory>
        ensures same { IfOk result (λ steps. AreSameAtoms self.now.atoms steps.items) }
        ensures fits { IsDisjunct self.now }
    {
        copied(alloc, &self.steps)
    }
}

// The same steps.
fn copied<'a>(alloc: Global, steps: &[Step<'a>]) -> Result<Vec<Step<'a>>, NoMemory>
    ensures { IfOk result (λ copy. copy.items ≡ steps.now) }
{
    let mut copy = Vec::with_capacity(alloc, steps.len())?;
    for step in steps {
        copy.push(Step { atom: step.atom })?;
    }
    Ok(copy)
}

// Of each variable, whether it is one of the head's.
fn known_head(alloc: Global, disjunct: &Disjunct) -> Result<Vec<bool>, NoMemory> {
    let mut known = vec![in alloc; false; disjunct.vars as usize]?;
    for var in disjunct.head.as_slice() {
        note(&mut known, *var);
    }
    Ok(known)
}

// An order of atoms, those that say the same once: each time the one that shares most variables with those before it,
// of these the one that has most variables of the head, and of these one that has a constant.
fn planned<'a>(
    alloc: Global,
    atoms: &'a [Atom],
    conditions: &Conditions<'a>,
    head: &[bool],
) -> Result<Vec<Step<'a>>, NoMemory>
    ensures { IfOk result (λ steps. AreSameAtoms atoms.now steps.items) }
{
    let mut left = steps_of(alloc, atoms)?;
    let mut steps = Vec::new(alloc);
    let mut known = vec![in alloc; false; head.len()]?;
    while left.len() > 0 {
        let place = next_place(&left, &known, head);
        let step = left.remove(place);
        note_all(step.atom(), &mut known);
        spread(conditions.equalities(), &mut known);
        steps.push(step)?;
    }
    Ok(steps)
}

// The atoms as they stand, those that say the same once.
fn steps_of<'a>(alloc: Global, atoms: &'a [Atom]) -> Result<Vec<Step<'a>>, NoMemory>
    ensures { IfOk result (λ steps. AreSameAtoms atoms.now steps.items) }
{
    let mut steps = Vec::new(alloc);
    for atom in atoms {
        if is_among(&steps, atom) {
            continue;
        }
        steps.push(Step { atom })?;
    }
    Ok(steps)
}

// Says one of these the same as an atom?
fn is_among(steps: &[Step], atom: &Atom) -> bool
    ensures { OnTrue result (Contains steps.now atom.now) }
{
    for step in steps {
        if are_same(step.atom(), atom) {
            return true;
        }
    }
    false
}

// Where among atoms the one stands that is searched next.
fn next_place(left: &[Step], known: &[bool], head: &[bool]) -> usize
    requires { 0 < length left.now }
    ensures { result < length left.now }
{
    let mut best = 0;
    for place in 1..left.len() {
        if is_before(left[place].atom(), left[best].atom(), known, head) {
            best = place;
        }
    }
    best
}

// Is an atom searched before another?
fn is_before(one: &Atom, other: &Atom, known: &[bool], head: &[bool]) -> bool {
    let shared = among(one, known).cmp(&among(other, known));
    let headed = among(one, head).cmp(&among(other, head));
    match (shared, headed) {
        (Ordering::Greater, _) => true,
        (Ordering::Less, _) => false,
        (Ordering::Equal, Ordering::Greater) => true,
        (Ordering::Equal, Ordering::Less) => false,
        (Ordering::Equal, Ordering::Equal) => has_constant(one) && !has_constant(other),
    }
}

// How many of some variables stand in an atom.
fn among(atom: &Atom, noted: &[bool]) -> usize {
    let terms = atom.terms.as_slice();
    let mut count = 0usize;
    for place in 0..terms.len() {
        if is_first(terms, place) && is_noted(&terms[place], noted) {
            count = count.saturating_add(1);
        }
    }
    count
}

// Is a term a variable that is one of those noted?
fn is_noted(term: &Term, noted: &[bool]) -> bool {
    match term {
        Term::Var(var) => is_known(noted, *var),
        Term::Any => false,
        Term::Constant(_) => false,
    }
}

// Stands the term of a place at none before it?
fn is_first(terms: &[Term], place: usize) -> bool {
    for earlier in 0..place {
        if is_one_variable(terms.get(earlier), terms.get(place)) {
            return false;
        }
    }
    true
}

// Are two terms one variable?
fn is_one_variable(one: Option<&Term>, other: Option<&Term>) -> bool {
    match (one, other) {
        (Some(Term::Var(one)), Some(Term::Var(other))) => *one == *other,
        _ => false,
    }
}

// Has the atom a constant?
fn has_constant(atom: &Atom) -> bool {
    atom.terms.as_slice().iter().any(|term| match term {
        Term::Constant(_) => true,
        _ => false,
    })
}

// Adds the places at which values are looked up where those of some variables are known.
fn look_up_steps(
    steps: &[Step],
    conditions: &Conditions,
    mut known: Vec<bool>,
    looked_up: &mut Vec<LookedUp>,
) -> Result<(), NoMemory> {
    spread(conditions.equalities(), &mut known);
    for (number, step) in steps.iter().enumerate() {
        look_up(step.atom(), bounding(conditions, number), &known, looked_up)?;
        note_all(step.atom(), &mut known);
        spread(conditions.equalities(), &mut known);
    }
    Ok(())
}

// The comparisons that may bound values at a step: all, and none at the first, which is gone through once.
fn bounding<'a>(conditions: &Conditions<'a>, number: usize) -> &'a [Test] {
    if number > 0 { conditions.tests() } else { &[] }
}

// Adds the places of an atom at which values are looked up. Where no value of its places is known these are those at
// which comparisons bound the value.
fn look_up(
    atom: &Atom,
    tests: &[Test],
    known: &[bool],
    looked_up: &mut Vec<LookedUp>,
) -> Result<(), NoMemory> {
    let is_asked = is_asked(atom, known);
    for (place, term) in atom.terms.as_slice().iter().enumerate() {
        if asks(term, known) || !is_asked && is_bounded(term, tests, known) {
            looked_up.push(LookedUp {
                relation: atom.relation,
                place,
            })?;
        }
    }
    Ok(())
}

// Notes the variables of an atom.
fn note_all(atom: &Atom, known: &mut Vec<bool>) {
    for term in atom.terms.as_slice() {
        if let Term::Var(var) = term {
            note(known, *var);
        }
    }
}

// Notes the variables that have the values of sides that are known.
fn spread(equalities: &[Equality], known: &mut Vec<bool>) {
    for equality in equalities {
        if is_known_side(equality.side(), known) {
            note(known, equality.var());
        }
    }
}

// Is the value of a side known?
fn is_known_side(side: &TestTerm, known: &[bool]) -> bool {
    match side {
        TestTerm::Var(var) => is_known(known, *var),
        TestTerm::Constant(_) => true,
    }
}

// Has the atom a place whose value is known?
fn is_asked(atom: &Atom, known: &[bool]) -> bool {
    atom.terms.as_slice().iter().any(|term| asks(term, known))
}

// Is a term a variable that a comparison bounds by a value that is known?
fn is_bounded(term: &Term, tests: &[Test], known: &[bool]) -> bool {
    match term {
        Term::Var(var) => tests.iter().any(|test| bounds(test, *var, known)),
        _ => false,
    }
}

// Bounds a comparison a variable by a value that is known?
fn bounds(test: &Test, var: u32, known: &[bool]) -> bool {
    is_order(test.cmp)
        && (is_variable(&test.left, var) && is_known_side(&test.right, known)
            || is_variable(&test.right, var) && is_known_side(&test.left, known))
}

// Is a comparison one of order?
fn is_order(cmp: Cmp) -> bool {
    match cmp {
        Cmp::Lt => true,
        Cmp::Le => true,
        Cmp::Gt => true,
        Cmp::Ge => true,
        Cmp::Eq => false,
        Cmp::Ne => false,
    }
}

// Is a side this variable?
fn is_variable(side: &TestTerm, var: u32) -> bool {
    match side {
        TestTerm::Var(other) => *other == var,
        TestTerm::Constant(_) => false,
    }
}

// Asks a term for a value that is known?
fn asks(term: &Term, known: &[bool]) -> bool {
    match term {
        Term::Var(var) => is_known(known, *var),
        Term::Any => false,
        Term::Constant(_) => true,
    }
}

// Has a variable a value?
fn is_known(known: &[bool], var: u32) -> bool {
    known.get(var as usize).copied().unwrap_or(false)
}

// Notes that a variable has a value.
fn note(known: &mut Vec<bool>, var: u32) {
    if (var as usize) < known.len() {
        known[var as usize] = true;
    }
}
