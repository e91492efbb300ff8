use crate::Verdict;
use currency_base::ItemList;
use refutation_log::Log;
use spec_model::Completion;

/// Completions, in the order of the text.
pub type CompletionList = ItemList<Completion>;

/// A verdict, the completions that are listed for it, and the derivations. Completions show what holds in
/// some completion, and the log what holds in all.
#[derive(Drop)]
pub struct Report {
    pub verdict: Verdict,
    pub completions: CompletionList,
    pub log: Log,
}

/// A part of a report, as a refusal names it. Places count from 0.
#[derive(Clone, Copy, PartialEq, Eq)]
pub enum Part {
    Verdict,
    /// A current tuple or an answer of the verdict.
    Item(u32),
    /// A listed completion.
    Completion(u32),
    /// A step of the log.
    Step(u32),
}
