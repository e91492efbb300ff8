//! Binding of `relation` statements: the relation that a declaration and its table say.
#![tactic(auto)]

mod declaration;
mod head;
mod laws;
mod named;
mod relation;
mod table;

pub use declaration::Declaration;
pub use laws::one_declaration;
pub use named::NamedRelation;
pub use relation::bind_relation;
