use match_premises::Premise;
use posed_facts::Fact;
use spec_model::{Completion, Specification};

/// Facts that are to be decided, and the budget of each question that is put for one.
#[derive(Clone, Copy)]
pub(crate) struct Task<'a> {
    pub spec: &'a Specification,
    pub facts: &'a [Fact],
    pub budget: u64,
    /// How many completions were known at first.
    pub known: usize,
}

/// What is found so far: consistent completions, the first of which stays, and which facts hold in every one.
#[derive(Drop)]
pub(crate) struct Found {
    pub completions: Vec<Completion>,
    pub holds: Vec<bool>,
}

/// How far the search over a part is.
#[derive(Clone, Copy)]
pub(crate) struct Round {
    /// So many of the completions may differ from the first one in this part.
    pub used: usize,
    /// The claim that was tried last: the current value of a place in the first completion.
    pub claim: Option<Premise>,
    /// Does it hold in every consistent completion?
    pub certain: bool,
}
