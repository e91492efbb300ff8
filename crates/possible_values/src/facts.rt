//! For each candidate the fact that it does not hold.

ghost use Rattle.std.specs.Prelude.{◌≡◌, ◌∷◌, [], All, IfOk, length};
ghost use Rattle.posed_facts.specs.Facts.{IsPosable};
ghost use Rattle.posed_facts.specs.declared.fact.Fact.TheVariants as fact;
ghost use Rattle.possible_values.specs.Candidates.{DeniesMatch, IsDenialOf, turned};
ghost use Rattle.possible_values.specs.Steps.{AreDenials, HaveFewAttrs, IsCandidate, IsQueryMatch};
ghost use Rattle.search_logs.specs.SearchLogs.{IsWithin};

use crate::candidates::Candidate;
use crate::found::FactList;
use currency_base::{NoMemory, Pair};
use match_candidates::MatchClaims;
use match_premises::{Premise, PremiseList};
use posed_facts::Fact;
use query_model::Match;
use spec_model::{Asked, Question, Specification};
use std::alloc::Global;

/// The facts that candidates of a question do not hold, in their order.
pub(crate) fn denials(
    alloc: Global,
    spec: &Specification,
    question: &Question,
    candidates: &[Candidate],
) -> Result<FactList, NoMemory>
    requires within { IsWithin spec.now }
    requires candidates { All (IsCandidate spec.now.relations question.now) candidates.now }
    ensures { IfOk result (AreDenials spec.now.relations question.now candidates.now (length candidates.now)) }
{
    let looks = MatchClaims::new(alloc, spec)?;
    let mut facts = FactList::new(alloc);
    for one in candidates {
        facts.push(denial(alloc, &looks, question, one)?)?;
    }
    Ok(facts)
}

/// The fact that a candidate does not hold.
fn denial(
    alloc: Global,
    looks: &MatchClaims<'_>,
    question: &Question,
    candidate: &Candidate,
) -> Result<Fact, NoMemory>
    requires few { HaveFewAttrs looks.now }
    requires candidate { IsCandidate looks.now question.now candidate.now }
    ensures denies { IfOk result (IsDenialOf looks.now question.now candidate.now) }
    ensures posable { IfOk result (IsPosable looks.now) }
{
    match candidate {
        Candidate::Pair(asked) => Ok(Fact::Before(turned(*asked))),
        Candidate::Value(claim) => of_claim(alloc, *claim),
        Candidate::Match(one) => of_match(alloc, looks, question, one),
    }
}

/// The fact that a value is not the current one.
fn of_claim(alloc: Global, claim: Premise) -> Result<Fact, NoMemory>
    ensures { IfOk result (λ one. one ≡ fact.Lacks (claim ∷ [])) }
{
    let mut claims = PremiseList::new(alloc);
    claims.push(claim)?;
    Ok(Fact::Lacks(claims))
}

/// The fact that of the values which a match looks at one is not the current one.
fn of_match(
    alloc: Global,
    looks: &MatchClaims<'_>,
    question: &Question,
    one: &Match,
) -> Result<Fact, NoMemory>
    requires few { HaveFewAttrs looks.now }
    requires one { IsQueryMatch looks.now question.now one.now }
    ensures denies { IfOk result (DeniesMatch looks.now question.now one.now) }
    ensures posable { IfOk result (IsPosable looks.now) }
{
    match question {
        Question::Answers(query) => Ok(Fact::Lacks(looks.claims_of(alloc, query, one)?)),
        _ => unreachable!(),
    }
}

/// The pair turned round.
fn turned(asked: Asked) -> Asked
    ensures { result ≡ turned asked }
{
    Asked {
        rel: asked.rel,
        pair: Pair {
            attr: asked.pair.attr,
            earlier: asked.pair.later,
            later: asked.pair.earlier,
        },
    }
}
