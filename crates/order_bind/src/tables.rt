//! Binding of `orders` statements: the given pairs that a table holds.

mod bind;
mod laws;
mod pairs;
mod records;
mod table;

pub use bind::bind_orders;
pub use laws::one_orders;
pub use pairs::{checked, pairs_of};
pub use records::{PairRecord, RecordList, records_of};
pub use table::read_orders;
