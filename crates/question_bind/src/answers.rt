// Questions on the answers of a query.

ghost use Rattle.std.specs.Prelude.{◌≡◌, IfOk};
ghost use Rattle.bind_faults.specs.Faults.{IsDue, IsReadFault};
ghost use Rattle.spec_model.specs.Questions.{IsQuestionOn};
ghost use Rattle.spec_names.specs.Names.{all_names_of};
ghost use Rattle.question_bind.specs.Bound.{AsksQuery, answers_of};

use bind_faults::BindFault;
use query_bind::bind_query;
use query_syntax::QueryTree;
use spec_model::{Question, Specification};
use spec_names::SpecNames;
use std::alloc::Global;

/// The question on the answers of the query that a tree says of a specification, or the query's first
/// fault.
pub fn bind_answers(
    alloc: Global,
    spec: &Specification,
    tree: &QueryTree,
) -> Result<Question, BindFault>
    ensures due { IsDue (answers_of spec.now.relations tree.now) result }
    ensures fits { IfOk result (IsQuestionOn spec.now.relations) }
    ensures asks { IfOk result AsksQuery }
    ensures reads { IsReadFault result → ⊥ }
{
    let names = SpecNames::of(alloc, spec)?;
    answers_named(alloc, &names, spec, tree)
}

/// The same, by the names of the specification.
fn answers_named(
    alloc: Global,
    names: &SpecNames,
    spec: &Specification,
    tree: &QueryTree,
) -> Result<Question, BindFault>
    requires { names.now ≡ all_names_of spec.now }
    ensures due { IsDue (answers_of spec.now.relations tree.now) result }
    ensures fits { IfOk result (IsQuestionOn spec.now.relations) }
    ensures asks { IfOk result AsksQuery }
    ensures reads { IsReadFault result → ⊥ }
{
    match bind_query(alloc, names, spec, tree) {
        Ok(query) => Ok(Question::Answers(query)),
        Err(fault) => Err(fault),
    }
}
