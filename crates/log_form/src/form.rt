ghost use Rattle.std.specs.Prelude.{◌≡◌, List, None, length, IfOk};
ghost use Rattle.refutation_log.specs.Counted.{AreWithin};
ghost use Rattle.refutation_log.specs.declared.log.Log.{Log};
ghost use Rattle.spec_model.specs.declared.relation.Relation.{Relation};
ghost use Rattle.log_form.specs.Form.{first_fault};

use crate::index::index_for;
use crate::statements::statements_fault;
use crate::steps::steps_fault;
use currency_base::{ErrorCode, NoMemory};
use refutation_log::Log;
use spec_model::Specification;
use std::alloc::Global;

/// Why a log is not well formed, by the first of its statements, or else of its steps, at fault. Places
/// count from 0.
#[derive(Clone, Copy, Debug, PartialEq, Eq)]
pub enum FormFault {
    /// UnknownName where the relation or the attribute is not there, DuplicateName where the statement is
    /// not above the one before it, Mismatch where the row of a `last` is not the first of its entity with
    /// its value, UnknownRow where a row is not there, NotOneEntity where the rows of a `before` are of two
    /// entities or the first number is not below the second.
    Statement { place: usize, code: ErrorCode },
    /// A literal's statement is not there.
    Step { place: usize },
}

/// The first fault of a log on a specification, if it has one: statements before steps. Takes time in
/// proportion to the log's statements, literals and answers, for each `Last` the rows of its entity, and, if
/// there is one, the specification's rows and entities.
pub fn first_fault(
    alloc: Global,
    spec: &Specification,
    log: &Log,
) -> Result<Option<FormFault>, NoMemory>
    ensures { IfOk result (λ fault. fault ≡ first_fault spec.now.relations log.now) }
{
    let relations = spec.relations();
    let statements = log.statements.as_slice();
    let index = index_for(alloc, relations, statements)?;
    match statements_fault(relations, &index, log.answers.as_slice(), statements) {
        Some(fault) => Ok(Some(fault)),
        None => Ok(steps_fault(statements.len(), &log.steps)),
    }
}

/// A law: the literals of a well-formed log are of its statements.
pub fn literals_are_of_statements()
    ensures { (relations : List Relation) (log : Log) → first_fault relations log ≡ None
        → AreWithin (length log.statements) log.steps }
{}
