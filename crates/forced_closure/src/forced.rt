use currency_base::{CopyId, Pair, RelId, RowId, RuleId};
use denial_rules::Binding;

/// A forced pair of a relation, and how it was derived.
#[derive(Drop)]
pub struct Forced {
    pub rel: RelId,
    pub pair: Pair,
    pub why: Why,
}

/// How a forced pair was derived. What it is derived from stands at smaller places.
#[derive(Drop)]
pub enum Why {
    /// It is a given pair.
    Given,
    /// The pairs at these places meet: the first ends with the row that the second begins with.
    Transitive {
        first: u32,
        second: u32,
    },
    /// A rule concludes it of these rows, whose premises are all forced.
    Rule {
        rule: RuleId,
        rows: Binding,
    },
    /// It is the pair of two mapped rows, and that of their sources is forced.
    Copy {
        copy: CopyId,
        place: u32,
        first: RowId,
        second: RowId,
    },
    /// It is the pair of the sources of two mapped rows, and theirs is forced.
    Back {
        copy: CopyId,
        place: u32,
        first: RowId,
        second: RowId,
    },
}
