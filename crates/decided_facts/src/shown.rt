use currency_base::ItemList;
use report_model::{CompletionList, Report};

/// What is shown of a fact.
#[derive(Clone, Copy)]
pub enum Shown {
    /// It holds in every consistent completion.
    Holds,
    /// It fails in the listed completion of this place, counted from 0.
    FailsIn(u32),
}

/// What is shown of facts, in their order.
pub type ShownList = ItemList<Shown>;

/// What is found of facts.
#[derive(Drop)]
pub enum FactOutcome {
    /// Consistent completions, and what is shown of each fact.
    All {
        completions: CompletionList,
        shown: ShownList,
    },
    /// The budget is spent on the fact of this place, counted from 0, as the report says.
    Open {
        place: usize,
        report: Report,
    },
}
