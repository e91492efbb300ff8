//! Laws, and no code: the assignments that make all axioms true are the consistent completions with their answers.
#![tactic(auto)]

mod laws;

pub use laws::{
    answers_are_matches, answers_are_said, assignments_are_completions, certain_answers_are_said,
    completions_have_assignments,
};
