use currency_base::{CopyId, Pair, RelId, RowId, RuleId};
use spec_model::Rule;

/// An edit of a specification.
#[derive(Drop)]
pub enum Edit {
    /// A given pair of a relation is added. One that is there already changes nothing.
    AddGiven {
        rel: RelId,
        pair: Pair,
    },
    /// A rule is added after the others.
    AddRule(Rule),
    /// A row of a copy function's target relation is mapped to one of its source relation.
    MapCopied {
        copy: CopyId,
        target: RowId,
        source: RowId,
    },
    /// A given pair of a relation is withdrawn.
    WithdrawGiven {
        rel: RelId,
        pair: Pair,
    },
    /// A rule is withdrawn. Each after it has the place before its own from then on.
    WithdrawRule(RuleId),
    /// A row of a copy function's target relation is mapped to this row no more.
    UnmapCopied {
        copy: CopyId,
        target: RowId,
        source: RowId,
    },
}
