use currency_base::Assignment;
use spec_model::Completion;

/// What a decision tells.
#[derive(Drop)]
pub enum Outcome {
    /// A consistent completion in which the goal is false, and the truth of each statement in it.
    Model {
        truths: Assignment,
        completion: Completion,
    },
    /// The step that is the clause of the goal alone.
    Proved(u32),
    /// The step that is the empty clause.
    Empty(u32),
    /// No unit is left, and the log is open.
    Spent,
}
