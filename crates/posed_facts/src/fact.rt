use match_premises::{Premise, PremiseList};
use spec_model::Asked;

/// What may hold in a completion.
#[derive(Drop)]
pub enum Fact {
    /// The pair's earlier row comes before its later one.
    Before(Asked),
    /// The current value that is claimed is the current one.
    Current(Premise),
    /// Of the current values that are claimed one is another.
    Lacks(PremiseList),
}
