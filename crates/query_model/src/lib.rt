//! Unions of conjunctive queries with comparisons, and what their answers over an instance are.
#![tactic(auto)]

mod query;

pub use query::{
    Atom, AtomList, Disjunct, DisjunctList, Match, Query, Term, TermList, Test, TestList, TestTerm,
    VarList,
};
