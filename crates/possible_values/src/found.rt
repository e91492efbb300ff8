use crate::candidates::CandidateList;
use currency_base::ItemList;
use decided_facts::ShownList;
use posed_facts::Fact;
use report_model::{CompletionList, Report};

/// Facts, in order.
pub type FactList = ItemList<Fact>;

/// A question on which a budget was spent.
#[derive(Drop)]
pub enum Posed {
    /// Is there a consistent completion?
    Consistent,
    /// Does this fact hold in every consistent completion?
    Fact(Fact),
}

/// The candidates of a question, for each the fact that it does not hold, consistent completions, and what is shown of these
/// facts: a candidate is possible where its fact fails in a listed completion, and impossible where it holds in every consistent
/// one.
#[derive(Drop)]
pub struct Found {
    pub candidates: CandidateList,
    pub facts: FactList,
    pub completions: CompletionList,
    pub shown: ShownList,
}

/// What is found of the candidates of a question.
#[derive(Drop)]
pub enum Possible {
    /// There is no consistent completion, as the report shows.
    Inconsistent(Report),
    /// This is found.
    Found(Found),
    /// The budget is spent on this question, as the report says.
    Undecided { posed: Posed, report: Report },
    /// There are more than 1,000,000 candidates.
    TooMany,
}
