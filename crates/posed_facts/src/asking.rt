ghost use Rattle.std.specs.Prelude.{◌≡◌, ◌∷◌, [], All, Some, map, IfOk};
ghost use Rattle.posed_facts.specs.Facts.{IsPlaced, IsPosable};
ghost use Rattle.posed_facts.specs.Questions.{claimed_disjunct, fact_question, other_disjunct, other_tests};
ghost use Rattle.spec_model.specs.declared.question.Question.TheVariants as asked;

use crate::Fact;
use crate::atom::claim_atoms;
use crate::read::value_of;
use currency_base::{Cmp, NoMemory, Value};
use match_premises::Premise;
use query_model::{Disjunct, DisjunctList, Query, Term, Test, TestList, TestTerm, VarList};
use spec_model::{Asked, AskedList, Question, Specification};
use std::alloc::Global;

/// The question that asks whether a fact holds in every consistent completion: for a pair, that pair alone; for a current
/// value, a query without a head whose one atom has the entity's name and the value; for values of which one is another, such
/// a query with a disjunct for each, whose atom has a variable at the attribute's place, and which says that it is not the
/// value.
pub fn fact_question(alloc: Global, spec: &Specification, fact: &Fact) -> Result<Question, NoMemory>
    requires { IsPosable spec.now.relations fact.now }
    ensures { IfOk result (λ one. one ≡ fact_question spec.now.relations fact.now) }
{
    match fact {
        Fact::Before(pair) => pair_question(alloc, *pair),
        Fact::Current(claim) => current_question(alloc, spec, *claim),
        Fact::Lacks(claims) => lacking_question(alloc, spec, claims.as_slice()),
    }
}

/// Whether the pair holds.
fn pair_question(alloc: Global, pair: Asked) -> Result<Question, NoMemory>
    ensures { IfOk result (λ one. one ≡ asked.Certain (pair ∷ [])) }
{
    let mut pairs = AskedList::new(alloc);
    pairs.push(pair)?;
    Ok(Question::Certain(pairs))
}

/// Whether the claimed value is the current one.
fn current_question(
    alloc: Global,
    spec: &Specification,
    claim: Premise,
) -> Result<Question, NoMemory>
    requires { IsPlaced spec.now.relations claim }
    ensures { IfOk result (λ one. one ≡
        asked.Answers (record { disjuncts = claimed_disjunct spec.now.relations claim ∷ [] })) }
{
    let mut disjuncts = DisjunctList::new(alloc);
    disjuncts.push(claimed_disjunct(alloc, spec, claim)?)?;
    Ok(Question::Answers(Query { disjuncts }))
}

/// Whether one of the claimed values is not the current one.
fn lacking_question(
    alloc: Global,
    spec: &Specification,
    claims: &[Premise],
) -> Result<Question, NoMemory>
    requires { All (IsPlaced spec.now.relations) claims.now }
    ensures { IfOk result (λ one. one ≡
        asked.Answers (record { disjuncts = map (other_disjunct spec.now.relations) claims.now })) }
{
    let mut disjuncts = DisjunctList::new(alloc);
    for claim in claims {
        disjuncts.push(other_disjunct(alloc, spec, *claim)?)?;
    }
    Ok(Question::Answers(Query { disjuncts }))
}

/// That the entity has the value that is claimed.
fn claimed_disjunct(
    alloc: Global,
    spec: &Specification,
    claim: Premise,
) -> Result<Disjunct, NoMemory>
    requires { IsPlaced spec.now.relations claim }
    ensures { IfOk result (λ one. one ≡ claimed_disjunct spec.now.relations claim) }
{
    let term = Term::Constant(value_of(spec, claim).duplicate(alloc)?);
    let atoms = claim_atoms(alloc, spec, claim, term)?;
    Ok(Disjunct {
        head: VarList::new(alloc),
        atoms,
        tests: TestList::new(alloc),
        vars: 0,
    })
}

/// That the entity has another value.
fn other_disjunct(alloc: Global, spec: &Specification, claim: Premise) -> Result<Disjunct, NoMemory>
    requires { IsPlaced spec.now.relations claim }
    ensures { IfOk result (λ one. one ≡ other_disjunct spec.now.relations claim) }
{
    let atoms = claim_atoms(alloc, spec, claim, Term::Var(0))?;
    let tests = other_tests(alloc, value_of(spec, claim))?;
    Ok(Disjunct {
        head: VarList::new(alloc),
        atoms,
        tests,
        vars: 1,
    })
}

/// That the first variable is not this value.
fn other_tests(alloc: Global, value: &Value) -> Result<TestList, NoMemory>
    ensures { IfOk result (λ tests. tests ≡ other_tests (Some value.now)) }
{
    let right = TestTerm::Constant(value.duplicate(alloc)?);
    let mut tests = TestList::new(alloc);
    tests.push(Test {
        left: TestTerm::Var(0),
        cmp: Cmp::Ne,
        right,
    })?;
    Ok(tests)
}
