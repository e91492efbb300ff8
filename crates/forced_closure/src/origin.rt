use currency_base::{CopyId, RowId, RuleId};

/// What a clause was made of.
#[derive(Clone, Copy)]
pub(crate) enum Origin {
    /// This ground of the rule, by its place among the rule's grounds.
    Rule {
        rule: RuleId,
        ground: usize,
    },
    /// Two mapped rows at a place of the copy function: of the pair of their sources it concludes theirs.
    Copy {
        copy: CopyId,
        place: u32,
        first: RowId,
        second: RowId,
    },
    /// The same the other way: of the pair of the mapped rows it concludes that of their sources.
    Back {
        copy: CopyId,
        place: u32,
        first: RowId,
        second: RowId,
    },
}
