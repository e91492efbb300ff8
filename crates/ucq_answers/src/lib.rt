//! The answers of a query over an instance, and how a tuple is an answer.
#![tactic(auto)]

mod answer_set;
mod binding;
mod bounds;
mod choices;
mod comparisons;
mod fits;
mod fitting;
mod indexed;
mod laws;
mod match_search;
mod match_set;
mod matching;
mod place_index;
mod prepared;
mod relation_index;
mod search;

pub use fits::is_query;
pub use indexed::IndexedInstance;
pub use laws::laws_of_answers;
