use currency_base::ItemList;
use minimal_items::{NeededList, Spent};
use report_model::Report;
use spec_model::Specification;

/// An inconsistent smallest part, as a specification of its own, and what explains that it is.
#[derive(Drop)]
pub struct Conflict {
    pub part: Specification,
    pub needed: NeededList,
}

/// Inconsistent smallest parts, in the order of the parts.
pub type ConflictList = ItemList<Conflict>;

/// What is found of the smallest parts.
#[derive(Drop)]
pub enum Found {
    /// These are the inconsistent ones, in order.
    All(ConflictList),
    /// For this part the budget is spent, as the report says.
    Undecided { part: Specification, report: Report },
    /// This part is inconsistent, and with some of its items alone the budget is spent.
    Open { part: Specification, spent: Spent },
}
