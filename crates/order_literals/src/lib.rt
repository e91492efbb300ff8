//! The variables of a question: the statements on a completion that are numbered, and the literals that say
//! them; each is said by one literal, and of two rows of one entity one stands before the other.
#![tactic(auto)]

mod block;
mod blocks;
mod catalogue;
mod laws;
mod numbering;
mod rows;
mod table;
mod tables;
mod values;
mod wanted;

pub use block::Block;
pub use laws::{literals_are_decided, one_literal, pairs_are_decided, statements_ascend};
pub use numbering::Numbering;
pub use wanted::Wanted;
