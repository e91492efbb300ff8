ghost use Rattle.std.specs.Prelude.{◌≡◌, true, false, IfOk};
ghost use Rattle.spec_model.specs.Completion.{HasShape};
ghost use Rattle.spec_model.specs.Consistent.{IsConsistent};

use completion_check::{CheckScratch, check_completion, flaw_rules_out};
use currency_base::NoMemory;
use spec_model::{Completion, Specification};
use std::alloc::Global;

/// Is a completion consistent? The look is at all of it, and takes the time that `check_completion` does.
pub fn is_consistent(
    alloc: Global,
    spec: &Specification,
    completion: &Completion,
) -> Result<bool, NoMemory>
    requires { HasShape spec.now.relations completion.now }
    ensures yes { IfOk result (λ found. found ≡ true → IsConsistent spec.now completion.now) }
    ensures no { IfOk result (λ found. found ≡ false → IsConsistent spec.now completion.now → ⊥) }
{
    flaw_rules_out();
    let mut scratch = CheckScratch::new(alloc, spec)?;
    match check_completion(spec, completion, &mut scratch) {
        Ok(()) => Ok(true),
        Err(_) => Ok(false),
    }
}
