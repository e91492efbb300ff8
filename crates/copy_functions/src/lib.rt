//! Copy functions: which rows of one relation were copied from which rows of another.
//!
//! The definition is that of Wenfei Fan, Floris Geerts and Jef Wijsen, "Determining the Currency of
//! Data", ACM Transactions on Database Systems 37(4), 2012, section 2.
#![tactic(auto)]

mod copy_map;
mod difference;
mod fault;
mod place;

pub use copy_map::{CopyList, CopyMap, sources_are_restored};
pub use fault::CopyFault;
pub use place::{Place, PlaceList};
