use part_places::Places;
use spec_model::{Question, Specification};

/// A part of a specification, a question for a fact of the whole, and what it asks of the part.
#[derive(Clone, Copy)]
pub(crate) struct Site<'a> {
    pub spec: &'a Specification,
    pub places: &'a Places,
    pub part: &'a Specification,
    pub question: &'a Question,
    pub asks: &'a Question,
}
