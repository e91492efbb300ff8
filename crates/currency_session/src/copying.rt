// Consistent completions that are copied.

ghost use Rattle.std.specs.Prelude.{All, IfOk, IfSome};
ghost use Rattle.spec_model.specs.Completion.{HasShape};
ghost use Rattle.spec_model.specs.Consistent.{IsConsistent};

use currency_base::NoMemory;
use edit_checks::{copied, is_consistent};
use report_model::Report;
use spec_model::{Completion, Specification};
use std::alloc::Global;

/// A copy of a consistent completion.
pub(crate) fn some_copy(
    alloc: Global,
    spec: &Specification,
    completion: &Completion,
) -> Result<Option<Completion>, NoMemory>
    requires { IsConsistent spec.now completion.now }
    ensures { IfOk result (λ found. IfSome found (IsConsistent spec.now)) }
{
    match copied(alloc, spec, completion) {
        Ok(copy) => Ok(Some(copy)),
        Err(error) => Err(error),
    }
}

/// A copy of the first completion that a report lists, if it lists one.
pub(crate) fn listed_first(
    alloc: Global,
    spec: &Specification,
    report: &Report,
) -> Result<Option<Completion>, NoMemory>
    requires { All (IsConsistent spec.now) report.now.completions }
    ensures { IfOk result (λ found. IfSome found (IsConsistent spec.now)) }
{
    if report.completions.len() == 0 {
        return Ok(None);
    }
    some_copy(alloc, spec, report.completions.get(0))
}

/// A completion, if it is consistent.
pub(crate) fn if_consistent(
    alloc: Global,
    spec: &Specification,
    completion: Completion,
) -> Result<Option<Completion>, NoMemory>
    requires { HasShape spec.now.relations completion }
    ensures { IfOk result (λ found. IfSome found (IsConsistent spec.now)) }
{
    match is_consistent(alloc, spec, &completion) {
        Ok(true) => Ok(Some(completion)),
        Ok(false) => Ok(None),
        Err(error) => Err(error),
    }
}
