use currency_base::Lit;
use flat_lists::FlatLists;

/// Clauses, in the order in which they came.
pub(crate) type Clauses = FlatLists<Lit>;
