//! How large a specification may be, told as it grows, and what is counted for that.
#![tactic(auto)]

mod copies;
mod counts;
mod instances;
mod laws;
mod left;
mod limits;
mod variables;

pub use copies::{are_of_one_entity, copy_partners};
pub use instances::{EntityLists, entity_lists, left_by_all, left_by_rule, limit_of_instances};
pub use laws::given_pairs_change_no_limit;
pub use left::left_after;
pub use limits::{limit_with_copy, limit_with_relation, limit_with_rule};
pub use variables::limit_of_variables;
