// The parts of a query, with ids and numbers in place of names. `names` are the names of the relations, and
// `vars` those of the disjunct's variables.

ghost use Rattle.std.specs.Prelude.{◌≡◌, ◌<◌, ◌≤◌, All, length};
ghost use Rattle.bind_faults.specs.Faults.{IsDue, all_of};
ghost use Rattle.query_bind.specs.Steps.{with_front};
ghost use Rattle.query_bind.specs.Queried.{all_parts, atom_of, atoms_of, disjunct_of, disjunct_on, side_of, term_of, test_of, tests_of, var_named, vars_of};

use crate::heads::unsafe_code;
use crate::variables::vars_of;
use bind_faults::{BindFault, find};
use currency_base::{ErrorCode, RelId};
use name_index::NameIndex;
use query_model::{
    Atom, AtomList, Disjunct, DisjunctList, Term, TermList, Test, TestList, TestTerm, VarList,
};
use query_syntax::{AtomTree, DisjunctTree, PartTree, PlaceTree, TestTermTree, TestTree};
use std::alloc::Global;
use text_grammar::Named;

/// The number of a variable, or its refusal.
fn var_named(vars: &NameIndex, named: &Named) -> Result<u32, BindFault>
    requires { length vars.now < 4294967296 }
    ensures { result ≡ var_named vars.now named.now }
{
    let place = find(vars, named, unsafe_code())?;
    Ok(place as u32)
}

/// The numbers of variables.
fn vars_named(alloc: Global, vars: &NameIndex, trees: &[Named]) -> Result<VarList, BindFault>
    requires { length vars.now < 4294967296 }
    ensures { IsDue (all_of (var_named vars.now) trees.now) result }
{
    let mut numbers = VarList::new(alloc);
    for tree in trees {
        match var_named(vars, tree) {
            Ok(number) => {
                let Ok(()) = numbers.push(number) else {
                    return Err(BindFault::NoMemory);
                };
            }
            Err(fault) => return Err(fault),
        }
    }
    Ok(numbers)
}

/// The term that a place says; a constant is copied.
fn term_of(alloc: Global, vars: &NameIndex, tree: &PlaceTree) -> Result<Term, BindFault>
    requires { length vars.now < 4294967296 }
    ensures { IsDue (term_of vars.now tree.now) result }
{
    match tree {
        PlaceTree::Var(named) => match var_named(vars, named) {
            Ok(number) => Ok(Term::Var(number)),
            Err(fault) => Err(fault),
        },
        PlaceTree::Any { .. } => Ok(Term::Any),
        PlaceTree::Constant(constant) => match constant.value.duplicate(alloc) {
            Ok(value) => Ok(Term::Constant(value)),
            Err(_) => Err(BindFault::NoMemory),
        },
    }
}

/// The terms that places say.
fn terms_of(alloc: Global, vars: &NameIndex, trees: &[PlaceTree]) -> Result<TermList, BindFault>
    requires { length vars.now < 4294967296 }
    ensures { IsDue (all_of (term_of vars.now) trees.now) result }
{
    let mut terms = TermList::new(alloc);
    for tree in trees {
        match term_of(alloc, vars, tree) {
            Ok(term) => {
                let Ok(()) = terms.push(term) else {
                    return Err(BindFault::NoMemory);
                };
            }
            Err(fault) => return Err(fault),
        }
    }
    Ok(terms)
}

/// The atom that a tree says.
fn atom_of(
    alloc: Global,
    names: &NameIndex,
    vars: &NameIndex,
    tree: &AtomTree,
) -> Result<Atom, BindFault>
    requires names { length names.now < 4294967296 }
    requires vars { length vars.now < 4294967296 }
    ensures { IsDue (atom_of names.now vars.now tree.now) result }
{
    let rel = find(names, &tree.relation, ErrorCode::UnknownName)?;
    let terms = terms_of(alloc, vars, tree.places.as_slice())?;
    Ok(Atom {
        relation: RelId(rel as u32),
        terms,
    })
}

/// The side of a comparison that a tree says; a constant is copied.
fn side_of(alloc: Global, vars: &NameIndex, tree: &TestTermTree) -> Result<TestTerm, BindFault>
    requires { length vars.now < 4294967296 }
    ensures { IsDue (side_of vars.now tree.now) result }
{
    match tree {
        TestTermTree::Var(named) => match var_named(vars, named) {
            Ok(number) => Ok(TestTerm::Var(number)),
            Err(fault) => Err(fault),
        },
        TestTermTree::Constant(constant) => match constant.value.duplicate(alloc) {
            Ok(value) => Ok(TestTerm::Constant(value)),
            Err(_) => Err(BindFault::NoMemory),
        },
    }
}

/// The comparison that a tree says.
fn test_of(alloc: Global, vars: &NameIndex, tree: &TestTree) -> Result<Test, BindFault>
    requires { length vars.now < 4294967296 }
    ensures { IsDue (test_of vars.now tree.now) result }
{
    let left = side_of(alloc, vars, &tree.left)?;
    let right = side_of(alloc, vars, &tree.right)?;
    Ok(Test {
        left,
        cmp: tree.cmp,
        right,
    })
}

/// The atoms that a disjunct says.
fn atoms_of(
    alloc: Global,
    names: &NameIndex,
    vars: &NameIndex,
    tree: &DisjunctTree,
) -> Result<AtomList, BindFault>
    requires names { length names.now < 4294967296 }
    requires vars { length vars.now < 4294967296 }
    ensures { IsDue (atoms_of names.now vars.now (all_parts tree.now)) result }
{
    let mut atoms = AtomList::new(alloc);
    match atom_of(alloc, names, vars, &tree.first) {
        Ok(atom) => {
            let Ok(()) = atoms.push(atom) else {
                return Err(BindFault::NoMemory);
            };
        }
        Err(fault) => return Err(fault),
    }
    atoms_after(alloc, names, vars, atoms, tree.parts.as_slice())
}

/// Some atoms, and those that parts say.
fn atoms_after(
    alloc: Global,
    names: &NameIndex,
    vars: &NameIndex,
    before: AtomList,
    parts: &[PartTree],
) -> Result<AtomList, BindFault>
    requires names { length names.now < 4294967296 }
    requires vars { length vars.now < 4294967296 }
    ensures { IsDue (with_front before (atoms_of names.now vars.now parts.now)) result }
{
    let mut atoms = before;
    for part in parts {
        let PartTree::Atom(tree) = part else {
            continue;
        };
        match atom_of(alloc, names, vars, tree) {
            Ok(atom) => {
                let Ok(()) = atoms.push(atom) else {
                    return Err(BindFault::NoMemory);
                };
            }
            Err(fault) => return Err(fault),
        }
    }
    Ok(atoms)
}

/// The comparisons that parts say.
fn tests_of(alloc: Global, vars: &NameIndex, parts: &[PartTree]) -> Result<TestList, BindFault>
    requires { length vars.now < 4294967296 }
    ensures { IsDue (tests_of vars.now parts.now) result }
{
    let mut tests = TestList::new(alloc);
    for part in parts {
        let PartTree::Test(tree) = part else {
            continue;
        };
        match test_of(alloc, vars, tree) {
            Ok(test) => {
                let Ok(()) = tests.push(test) else {
                    return Err(BindFault::NoMemory);
                };
            }
            Err(fault) => return Err(fault),
        }
    }
    Ok(tests)
}

/// The disjunct that a tree says, of these variables.
fn disjunct_on(
    alloc: Global,
    names: &NameIndex,
    vars: &NameIndex,
    head: &[Named],
    tree: &DisjunctTree,
) -> Result<Disjunct, BindFault>
    requires names { length names.now < 4294967296 }
    requires vars { length vars.now < 4294967296 }
    ensures { IsDue (disjunct_on names.now vars.now head.now tree.now) result }
{
    let head = vars_named(alloc, vars, head)?;
    let atoms = atoms_of(alloc, names, vars, tree)?;
    let tests = tests_of(alloc, vars, tree.parts.as_slice())?;
    Ok(Disjunct {
        head,
        atoms,
        tests,
        vars: vars.names().len() as u32,
    })
}

/// The disjunct that a tree says.
fn disjunct_of(
    alloc: Global,
    names: &NameIndex,
    head: &[Named],
    tree: &DisjunctTree,
) -> Result<Disjunct, BindFault>
    requires names { length names.now < 4294967296 }
    requires vars { length (vars_of tree.now) ≤ 32 }
    ensures { IsDue (disjunct_of names.now head.now tree.now) result }
{
    let vars = vars_of(alloc, tree)?;
    disjunct_on(alloc, names, &vars, head, tree)
}

/// The disjuncts that trees say.
pub fn disjuncts_of(
    alloc: Global,
    names: &NameIndex,
    head: &[Named],
    trees: &[DisjunctTree],
) -> Result<DisjunctList, BindFault>
    requires names { length names.now < 4294967296 }
    requires vars { All (λ d. length (vars_of d) ≤ 32) trees.now }
    ensures { IsDue (all_of (disjunct_of names.now head.now) trees.now) result }
{
    let mut disjuncts = DisjunctList::new(alloc);
    for tree in trees {
        match disjunct_of(alloc, names, head, tree) {
            Ok(disjunct) => {
                let Ok(()) = disjuncts.push(disjunct) else {
                    return Err(BindFault::NoMemory);
                };
            }
            Err(fault) => return Err(fault),
        }
    }
    Ok(disjuncts)
}
