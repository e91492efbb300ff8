//! The candidates of a question.

ghost use Rattle.std.specs.Prelude.{◌≡◌, IfNone, IfOk, IfSome, map};
ghost use Rattle.possible_values.specs.Candidates.{AreCandidates, AreQueryMatches, HasTooManyCandidates, most_matches};
ghost use Rattle.possible_values.specs.declared.candidates.Candidate.TheVariants as candidate;
ghost use Rattle.match_candidates.specs.Matches.{HasMoreMatches};
ghost use Rattle.spec_model.specs.Queries.{IsQueryOn};
ghost use Rattle.spec_model.specs.Questions.{IsQuestionOn};

use currency_base::{ItemList, NoMemory};
use match_candidates::matches;
use match_premises::Premise;
use query_model::{Match, Query};
use spec_model::{Asked, Question, Specification};
use std::alloc::Global;
use value_candidates::value_claims;

/// The most candidates of a query.
const MOST_MATCHES: usize = 1_000_000;

/// What may hold in some consistent completion.
#[derive(Drop)]
pub enum Candidate {
    /// The pair's earlier row comes before its later one.
    Pair(Asked),
    /// The row's value is the current one of its entity.
    Value(Premise),
    /// Each value that this match of the question's query looks at is the current one.
    Match(Match),
}

/// Candidates, in the order in which they are told.
pub type CandidateList = ItemList<Candidate>;

/// The candidates of a question: the asked pairs; the values of the entities of the asked relations; the matches of a query.
/// None, where a query has more than 1,000,000.
pub(crate) fn candidates(
    alloc: Global,
    spec: &Specification,
    question: &Question,
) -> Result<Option<CandidateList>, NoMemory>
    requires { IsQuestionOn spec.now.relations question.now }
    ensures listed { IfOk result (λ found. IfSome found (AreCandidates spec.now.relations question.now)) }
    ensures too_many { IfOk result (λ found. IfNone found (HasTooManyCandidates spec.now.relations question.now)) }
{
    match question {
        Question::Consistent => Ok(Some(CandidateList::new(alloc))),
        Question::Certain(pairs) => Ok(Some(of_pairs(alloc, pairs.as_slice())?)),
        Question::Same(rels) => {
            let claims = value_claims(alloc, spec, rels.as_slice())?;
            Ok(Some(of_claims(alloc, claims.as_slice())?))
        }
        Question::Answers(query) => of_query(alloc, spec, query),
    }
}

/// The asked pairs.
fn of_pairs(alloc: Global, pairs: &[Asked]) -> Result<CandidateList, NoMemory>
    ensures { IfOk result (λ list. list ≡ map (λ p. candidate.Pair p) pairs.now) }
{
    let mut list = CandidateList::new(alloc);
    for pair in pairs {
        list.push(Candidate::Pair(*pair))?;
    }
    Ok(list)
}

/// Values, by the claims that name them.
fn of_claims(alloc: Global, claims: &[Premise]) -> Result<CandidateList, NoMemory>
    ensures { IfOk result (λ list. list ≡ map (λ p. candidate.Value p) claims.now) }
{
    let mut list = CandidateList::new(alloc);
    for claim in claims {
        list.push(Candidate::Value(*claim))?;
    }
    Ok(list)
}

/// The matches of a query, if they are not too many.
fn of_query(
    alloc: Global,
    spec: &Specification,
    query: &Query,
) -> Result<Option<CandidateList>, NoMemory>
    requires { IsQueryOn spec.now.relations query.now }
    ensures listed { IfOk result (λ found. IfSome found (AreQueryMatches spec.now.relations query.now)) }
    ensures too_many { IfOk result (λ found. IfNone found (HasMoreMatches spec.now.relations query.now most_matches)) }
{
    match matches(alloc, spec, query, MOST_MATCHES)? {
        Some(list) => Ok(Some(of_matches(alloc, list.into_items())?)),
        None => Ok(None),
    }
}

/// Matches.
fn of_matches(alloc: Global, matches: Vec<Match>) -> Result<CandidateList, NoMemory>
    ensures { IfOk result (λ list. list ≡ map (λ m. candidate.Match m) matches.items) }
{
    let mut list = CandidateList::new(alloc);
    for one in matches {
        list.push(Candidate::Match(one))?;
    }
    Ok(list)
}
