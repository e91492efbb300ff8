/// When what a list is about is decided.
#[derive(Clone, Copy, PartialEq, Eq)]
pub enum When {
    /// By the next decision: the guide leads that picks first what it is told of, and picks from this list before any other.
    Next,
    /// By a later one, or by the way.
    Later,
}
