ghost use Rattle.std.specs.Prelude.{IfOk};
ghost use Rattle.possible_answers.specs.Answers.{ArePossibleAnswers};
ghost use Rattle.possible_values.specs.Possible.{AreFindings};
ghost use Rattle.search_logs.specs.SearchLogs.{IsWithin};
ghost use Rattle.spec_model.specs.Queries.{IsQueryOn};
ghost use Rattle.spec_model.specs.declared.question.Question.TheVariants as asked;

use crate::distinct::distinct;
use crate::heads::heads;
use answer_laws::instances_exist;
use currency_base::{NoMemory, TupleList};
use possible_values::Found;
use query_model::Query;
use spec_model::Specification;
use std::alloc::Global;

/// Exactly the tuples that are answers of a query over the current instance of some consistent completion, ascending, by what is
/// found of its matches.
pub fn possible_answers(
    alloc: Global,
    spec: &Specification,
    query: &Query,
    found: &Found,
) -> Result<TupleList, NoMemory>
    requires within { IsWithin spec.now }
    requires query { IsQueryOn spec.now.relations query.now }
    requires found { AreFindings spec.now (asked.Answers query.now) found.now }
    ensures { IfOk result (ArePossibleAnswers spec.now query.now) }
{
    instances_exist();
    let _ = spec.relations();
    let tuples = heads(
        alloc,
        query,
        found.candidates.as_slice(),
        found.shown.as_slice(),
    )?;
    distinct(alloc, tuples)
}
