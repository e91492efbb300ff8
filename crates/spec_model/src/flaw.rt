use currency_base::{AttrId, CopyId, EntId, Pair, RelId, RowId, RuleId};
use denial_rules::Binding;

/// What a completion that is not consistent fails.
#[derive(Drop)]
pub enum Flaw {
    /// The list of an attribute and an entity of a relation is no ranking of the entity's rows.
    NotARanking {
        rel: RelId,
        attr: AttrId,
        ent: EntId,
    },
    /// A given pair of a relation is not kept.
    GivenBroken {
        rel: RelId,
        pair: Pair,
    },
    /// A rule is broken by these rows, one per variable: its predicates hold and its conclusion does not.
    RuleBroken {
        rule: RuleId,
        rows: Binding,
    },
    /// A copy function is broken at one of its places, counted from 0, by two rows of one entity of its
    /// target relation: the first one's source stands before the second one's, and the first does not
    /// stand before the second.
    CopyBroken {
        copy: CopyId,
        place: u32,
        first: RowId,
        second: RowId,
    },
}
