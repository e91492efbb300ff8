ghost use Rattle.std.specs.Prelude.{◌≡◌, ◌<◌, ◌↔◌, ℕ, true, All, Contains, IsTrue};
ghost use Rattle.std.specs.Bool.{OnTrue};
ghost use Rattle.query_model.specs.Fitting.{IsDisjunct, IsQuery, IsTermOf, IsTestTermOf, StandsIn};
ghost use Rattle.query_model.specs.declared.query.Term.TheVariants.{Var};

use query_model::{Atom, Disjunct, Query, Term, Test, TestTerm};

/// Has each variable a value wherever it is met?
pub fn is_query(query: &Query) -> bool
    ensures fits { OnTrue result (IsQuery query.now) }
    ensures all { IsQuery query.now → result ≡ true }
{
    are_disjuncts(query.disjuncts.as_slice())
}

// Has each variable a value in all disjuncts?
fn are_disjuncts(disjuncts: &[Disjunct]) -> bool
    ensures { IsTrue result ↔ (All IsDisjunct disjuncts.now) }
{
    for disjunct in disjuncts {
        if !is_disjunct(disjunct) {
            return false;
        }
    }
    true
}

// Is each variable one of the disjunct's, and stands each of these in an atom?
fn is_disjunct(disjunct: &Disjunct) -> bool
    ensures { IsTrue result ↔ IsDisjunct disjunct.now }
{
    are_atoms_of(disjunct.vars, disjunct.atoms.as_slice())
        && are_tests_of(disjunct.vars, disjunct.tests.as_slice())
        && disjunct
            .head
            .as_slice()
            .iter()
            .all(|var| *var < disjunct.vars)
        && each_stands(disjunct.vars, disjunct.atoms.as_slice())
}

// Are all variables of atoms of so many?
fn are_atoms_of(vars: u32, atoms: &[Atom]) -> bool
    ensures { IsTrue result ↔ (All (λ atom. All (IsTermOf vars) atom.terms) atoms.now) }
{
    atoms
        .iter()
        .all(|atom| are_terms_of(vars, atom.terms.as_slice()))
}

// Are all variables among terms of so many?
fn are_terms_of(vars: u32, terms: &[Term]) -> bool
    ensures { IsTrue result ↔ (All (IsTermOf vars) terms.now) }
{
    terms.iter().all(|term| is_term_of(vars, term))
}

// Is a term's variable one of so many?
fn is_term_of(vars: u32, term: &Term) -> bool
    ensures { IsTrue result ↔ IsTermOf vars term.now }
{
    match term {
        Term::Var(var) => *var < vars,
        Term::Any => true,
        Term::Constant(_) => true,
    }
}

// Are all variables of comparisons of so many?
fn are_tests_of(vars: u32, tests: &[Test]) -> bool
    ensures { IsTrue result ↔ ((All (λ t. IsTestTermOf vars t.left) tests.now) ×
        (All (λ t. IsTestTermOf vars t.right) tests.now)) }
{
    tests.iter().all(|test| is_test_term_of(vars, &test.left))
        && tests.iter().all(|test| is_test_term_of(vars, &test.right))
}

// Is a side's variable one of so many?
fn is_test_term_of(vars: u32, side: &TestTerm) -> bool
    ensures { IsTrue result ↔ IsTestTermOf vars side.now }
{
    match side {
        TestTerm::Var(var) => *var < vars,
        TestTerm::Constant(_) => true,
    }
}

// Stands each of so many variables in an atom?
fn each_stands(vars: u32, atoms: &[Atom]) -> bool
    ensures { IsTrue result ↔ ((v : ℕ) → v < vars → StandsIn atoms.now v) }
{
    for var in 0..vars {
        if !stands_in(atoms, var) {
            return false;
        }
    }
    true
}

// Stands a variable in an atom?
fn stands_in(atoms: &[Atom], var: u32) -> bool
    ensures { IsTrue result ↔ StandsIn atoms.now var }
{
    for atom in atoms {
        if stands_at(atom, var) {
            return true;
        }
    }
    false
}

// Stands a variable in this atom?
fn stands_at(atom: &Atom, var: u32) -> bool
    ensures { IsTrue result ↔ Contains atom.now.terms (Var var) }
{
    is_among(atom.terms.as_slice(), var)
}

// Is a variable one of these terms?
fn is_among(terms: &[Term], var: u32) -> bool
    ensures { IsTrue result ↔ Contains terms.now (Var var) }
{
    for term in terms {
        if is_variable(term, var) {
            return true;
        }
    }
    false
}

// Is a term this variable?
fn is_variable(term: &Term, var: u32) -> bool
    ensures { IsTrue result ↔ (term.now ≡ Var var) }
{
    match term {
        Term::Var(other) => *other == var,
        _ => false,
    }
}
