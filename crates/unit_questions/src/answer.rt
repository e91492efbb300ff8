// A query with a tuple's values in place of the variables of its heads.

ghost use Rattle.std.specs.Prelude.{◌≡◌, map, IfOk};
ghost use Rattle.report_verify.specs.Asked.{query_of};
ghost use Rattle.unit_questions.specs.Substituted.{given_atom, given_disjunct, given_disjuncts, given_query, given_side, given_term, given_test, given_value};
ghost use Rattle.unit_questions.specs.Units.{answer_question};

use crate::given::{fits_head, given_value, left_number};
use currency_base::{NoMemory, Value};
use query_model::{
    Atom, AtomList, Disjunct, DisjunctList, Query, Term, TermList, Test, TestList, TestTerm,
    VarList,
};
use spec_model::Question;
use std::alloc::Global;

/// Whether the tuple is an answer of the question's query.
pub(crate) fn answer_question(
    alloc: Global,
    tuple: &[Value],
    question: &Question,
) -> Result<Question, NoMemory>
    ensures { IfOk result (λ one. one ≡ answer_question tuple.now (query_of question.now)) }
{
    match question {
        Question::Answers(query) => Ok(Question::Answers(given_query(alloc, tuple, query)?)),
        _ => Ok(Question::Consistent),
    }
}

/// The query with the tuple's values for its heads.
fn given_query(alloc: Global, tuple: &[Value], query: &Query) -> Result<Query, NoMemory>
    ensures { IfOk result (λ given. given ≡ given_query tuple.now query.now) }
{
    Ok(Query {
        disjuncts: given_disjuncts(alloc, tuple, query.disjuncts.as_slice())?,
    })
}

/// The disjuncts whose heads the tuple fits, with its values.
fn given_disjuncts(
    alloc: Global,
    tuple: &[Value],
    disjuncts: &[Disjunct],
) -> Result<DisjunctList, NoMemory>
    ensures { IfOk result (λ given. given ≡ given_disjuncts tuple.now disjuncts.now) }
{
    let mut list = DisjunctList::new(alloc);
    for disjunct in disjuncts {
        if fits_head(disjunct.head.as_slice(), tuple) {
            list.push(given_disjunct(alloc, tuple, disjunct)?)?;
        }
    }
    Ok(list)
}

/// The disjunct with the tuple's values for its head.
fn given_disjunct(alloc: Global, tuple: &[Value], disjunct: &Disjunct) -> Result<Disjunct, NoMemory>
    ensures { IfOk result (λ given. given ≡ given_disjunct tuple.now disjunct.now) }
{
    let head = disjunct.head.as_slice();
    let atoms = given_atoms(alloc, head, tuple, disjunct.atoms.as_slice())?;
    let tests = given_tests(alloc, head, tuple, disjunct.tests.as_slice())?;
    Ok(Disjunct {
        head: VarList::new(alloc),
        atoms,
        tests,
        vars: left_number(head, tuple, disjunct.vars),
    })
}

/// The atoms with these values.
fn given_atoms(
    alloc: Global,
    head: &[u32],
    tuple: &[Value],
    atoms: &[Atom],
) -> Result<AtomList, NoMemory>
    ensures { IfOk result (λ given. given ≡ map (given_atom (given_value head.now tuple.now)) atoms.now) }
{
    let mut list = AtomList::new(alloc);
    for atom in atoms {
        list.push(given_atom(alloc, head, tuple, atom)?)?;
    }
    Ok(list)
}

/// The atom with these values.
fn given_atom(alloc: Global, head: &[u32], tuple: &[Value], atom: &Atom) -> Result<Atom, NoMemory>
    ensures { IfOk result (λ given. given ≡ given_atom (given_value head.now tuple.now) atom.now) }
{
    Ok(Atom {
        relation: atom.relation,
        terms: given_terms(alloc, head, tuple, atom.terms.as_slice())?,
    })
}

/// What stands at places of an atom, with these values.
fn given_terms(
    alloc: Global,
    head: &[u32],
    tuple: &[Value],
    terms: &[Term],
) -> Result<TermList, NoMemory>
    ensures { IfOk result (λ given. given ≡ map (given_term (given_value head.now tuple.now)) terms.now) }
{
    let mut list = TermList::new(alloc);
    for term in terms {
        list.push(given_term(alloc, head, tuple, term)?)?;
    }
    Ok(list)
}

/// What stands at a place of an atom, with these values.
fn given_term(alloc: Global, head: &[u32], tuple: &[Value], term: &Term) -> Result<Term, NoMemory>
    ensures { IfOk result (λ given. given ≡ given_term (given_value head.now tuple.now) term.now) }
{
    match term {
        Term::Var(var) => match given_value(head, tuple, *var) {
            Some(value) => Ok(Term::Constant(value.duplicate(alloc)?)),
            None => Ok(Term::Var(left_number(head, tuple, *var))),
        },
        Term::Any => Ok(Term::Any),
        Term::Constant(value) => Ok(Term::Constant(value.duplicate(alloc)?)),
    }
}

/// The comparisons with these values.
fn given_tests(
    alloc: Global,
    head: &[u32],
    tuple: &[Value],
    tests: &[Test],
) -> Result<TestList, NoMemory>
    ensures { IfOk result (λ given. given ≡ map (given_test (given_value head.now tuple.now)) tests.now) }
{
    let mut list = TestList::new(alloc);
    for test in tests {
        list.push(given_test(alloc, head, tuple, test)?)?;
    }
    Ok(list)
}

/// The comparison with these values.
fn given_test(alloc: Global, head: &[u32], tuple: &[Value], test: &Test) -> Result<Test, NoMemory>
    ensures { IfOk result (λ given. given ≡ given_test (given_value head.now tuple.now) test.now) }
{
    Ok(Test {
        left: given_side(alloc, head, tuple, &test.left)?,
        cmp: test.cmp,
        right: given_side(alloc, head, tuple, &test.right)?,
    })
}

/// The side of a comparison with these values.
fn given_side(
    alloc: Global,
    head: &[u32],
    tuple: &[Value],
    side: &TestTerm,
) -> Result<TestTerm, NoMemory>
    ensures { IfOk result (λ given. given ≡ given_side (given_value head.now tuple.now) side.now) }
{
    match side {
        TestTerm::Var(var) => match given_value(head, tuple, *var) {
            Some(value) => Ok(TestTerm::Constant(value.duplicate(alloc)?)),
            None => Ok(TestTerm::Var(left_number(head, tuple, *var))),
        },
        TestTerm::Constant(value) => Ok(TestTerm::Constant(value.duplicate(alloc)?)),
    }
}
