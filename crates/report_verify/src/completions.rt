ghost use Rattle.std.specs.Prelude.{◌<◌, ◌^◌, All, IfErr, OnOk, length};
ghost use Rattle.completion_check.specs.Room.{HasRoom};
ghost use Rattle.report_verify.specs.Judged.{IsBadAmong};
ghost use Rattle.spec_model.specs.Completion.{HasShape};
ghost use Rattle.spec_model.specs.Consistent.{IsConsistent};

use crate::{Unshown, VerifyFault};
use completion_check::{CheckScratch, check_completion};
use report_model::{CompletionList, Part};
use spec_model::Specification;
use std::alloc::Global;

// Is each listed completion consistent? Otherwise the first that is not, with its first flaw. Where none is
// listed no room is made.
pub(crate) fn check_completions(
    alloc: Global,
    spec: &Specification,
    completions: &CompletionList,
) -> Result<(), VerifyFault>
    requires shape { All (HasShape spec.now.relations) completions.now }
    requires few { length completions.now < 2 ^ 32 }
    ensures consistent { OnOk result (All (IsConsistent spec.now) completions.now) }
    ensures bad { IfErr result (IsBadAmong spec.now completions.now) }
{
    if completions.len() == 0 {
        return Ok(());
    }
    match CheckScratch::new(alloc, spec) {
        Ok(mut scratch) => check_all(spec, completions, &mut scratch),
        Err(_) => Err(VerifyFault::NoMemory),
    }
}

// The same, in the room of a scratch.
fn check_all(
    spec: &Specification,
    completions: &CompletionList,
    scratch: &mut CheckScratch,
) -> Result<(), VerifyFault>
    requires shape { All (HasShape spec.now.relations) completions.now }
    requires few { length completions.now < 2 ^ 32 }
    requires room { HasRoom spec.now.relations scratch.old }
    ensures consistent { OnOk result (All (IsConsistent spec.now) completions.now) }
    ensures bad { IfErr result (IsBadAmong spec.now completions.now) }
{
    for (place, completion) in completions.as_slice().iter().enumerate() {
        if let Err(flaw) = check_completion(spec, completion, scratch) {
            return Err(VerifyFault::Refused {
                part: Part::Completion(place as u32),
                why: Unshown::BadCompletion(flaw),
            });
        }
    }
    Ok(())
}
