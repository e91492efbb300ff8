ghost use Rattle.std.specs.Prelude.{IfSome};
ghost use Rattle.bound_spec.specs.Growth.{IsWithinLimits};
ghost use Rattle.spec_model.specs.Questions.{IsQuestionOn};

use command_stages::{read_specification, read_the_question};
use currency_edge::Shelf;
use spec_model::{Question, Specification};
use std::alloc::Global;

/// The specification of this name, if its documents say one.
pub fn specification<S: Shelf>(alloc: Global, shelf: &mut S, name: &str) -> Option<Specification>
    ensures { IfSome result IsWithinLimits }
{
    match read_specification(alloc, shelf, name) {
        Ok(spec) => Some(spec),
        Err(_) => None,
    }
}

/// The question of this name about a specification, if its documents say one.
pub fn question<S: Shelf>(
    alloc: Global,
    shelf: &mut S,
    spec: &Specification,
    name: &str,
) -> Option<Question>
    ensures { IfSome result (IsQuestionOn spec.now.relations) }
{
    match read_the_question(alloc, shelf, spec, name) {
        Ok(question) => Some(question),
        Err(_) => None,
    }
}
