use currency_base::{CopyId, Pair, RelId, RowId, RuleId};

/// An item of a specification.
#[derive(Clone, Copy, PartialEq, Eq)]
pub enum Item {
    /// A given pair of a relation.
    Given { rel: RelId, pair: Pair },
    /// A rule.
    Rule(RuleId),
    /// A row of a copy function's target relation, which is mapped.
    Copy { copy: CopyId, target: RowId },
}
