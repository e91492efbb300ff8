/// What a decision came to.
#[derive(Drop)]
pub enum Found {
    /// No variable of the scope is free, unit propagation is at rest, and the goal is false. The trail stays as it is
    /// until the next call.
    Model,
    /// The step that is the clause of the goal alone.
    Proved(u32),
    /// The step that is the empty clause.
    Empty(u32),
    /// No unit is left, and a further counted step is due.
    Spent,
}
