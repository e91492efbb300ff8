use crate::task::Task;
use part_places::Places;
use spec_model::Specification;

/// A part of the specification of a task, and its places there.
#[derive(Clone, Copy)]
pub(crate) struct Site<'a> {
    pub task: &'a Task<'a>,
    pub places: &'a Places,
    pub part: &'a Specification,
}
