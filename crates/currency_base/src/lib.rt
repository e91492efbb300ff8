//! The values that every layer speaks of: names, typed values, tuples, rows, ids, pairs of rows,
//! literals, assignments, and the lists that hold them.
//!
//! Contracts see a [`Name`] as its bytes and every list as the list of its items.
#![tactic(auto)]

mod assignment;
mod error_code;
mod ids;
mod list;
mod lit;
mod memory;
mod name;
mod number;
mod pair;
mod row;
mod tuple;
mod value;

pub use assignment::Assignment;
pub use error_code::ErrorCode;
pub use ids::{AttrId, CopyId, EntId, RelId, RowId, RuleId};
pub use list::ItemList;
pub use lit::{Lit, laws_of_literals};
pub use memory::NoMemory;
pub use name::{Name, is_text};
pub use number::read_int;
pub use pair::Pair;
pub use row::Row;
pub use tuple::laws_of_tuple_order;
pub use value::{Cmp, Value, ValueKind};

/// Bytes of a text.
pub type ByteList = ItemList<u8>;
/// Names, in the order in which they were given.
pub type NameList = ItemList<Name>;
/// Values of one row, one per attribute, in the order of the attributes.
pub type Tuple = ItemList<Value>;
/// Tuples, in the order of the records that they were read from.
pub type TupleList = ItemList<Tuple>;
/// The rows of a relation; the place of a row is its [`RowId`].
pub type Rows = ItemList<Row>;
/// Rows of one relation by their ids, as a ranking lists them: the oldest first.
pub type RowList = ItemList<RowId>;
/// Entities of relations, by their ids.
pub type EntList = ItemList<EntId>;
/// Literals, in the order of the clause.
pub type LitList = ItemList<Lit>;
/// Pairs of rows of one relation.
pub type PairList = ItemList<Pair>;
