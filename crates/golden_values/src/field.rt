use currency_base::{ItemList, RowId};
use posed_facts::Fact;
use report_model::Report;

/// What is known of an attribute of an entity.
#[derive(Clone, Copy)]
pub enum Field {
    /// The value of this row is the current one in every consistent completion.
    Value(RowId),
    /// Two values are possible.
    Open,
}

/// The fields of an entity, one per attribute.
pub type FieldList = ItemList<Field>;

/// The fields of each entity of a relation, in order.
pub type FieldTable = ItemList<FieldList>;

/// A question on which a budget was spent.
#[derive(Drop)]
pub enum Posed {
    /// Is there a consistent completion?
    Consistent,
    /// Does this fact hold in every consistent completion?
    Fact(Fact),
}

/// What is found of the entities of a relation.
#[derive(Drop)]
pub enum Golden {
    /// The fields of each.
    Records(FieldTable),
    /// There is no consistent completion.
    Inconsistent,
    /// The budget is spent on this question, as the report says.
    Undecided { posed: Posed, report: Report },
}
