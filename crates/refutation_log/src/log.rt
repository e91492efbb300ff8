ghost use Rattle.std.specs.Prelude.{◌≡◌, []};

use crate::{StatementList, Steps};
use currency_base::TupleList;
use std::alloc::Global;

/// A log: the tuples that its `Answer` statements name, its statements, and its steps. The variable of a
/// literal is a place in the statements, and a hint a place in the steps; places count from 0.
#[derive(Drop)]
pub struct Log {
    pub answers: TupleList,
    pub statements: StatementList,
    pub steps: Steps,
}

impl Log {
    /// A log with no statement and no step.
    pub fn new(alloc: Global) -> Log
        ensures answers { result.answers ≡ [] }
        ensures statements { result.statements ≡ [] }
        ensures steps { result.steps ≡ [] }
    {
        Log {
            answers: TupleList::new(alloc),
            statements: StatementList::new(alloc),
            steps: Steps::new(alloc),
        }
    }
}
