use question_syntax::QuestionTree;
use spec_model::{Question, Specification};
use spec_syntax::SpecTree;

/// A specification, with the tree of its text.
#[derive(Drop)]
pub struct ReadSpec {
    pub tree: SpecTree,
    pub spec: Specification,
}

/// A question, with the tree of its text.
#[derive(Drop)]
pub struct ReadQuestion {
    pub tree: QuestionTree,
    pub question: Question,
}
