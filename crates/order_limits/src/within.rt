ghost use Rattle.std.specs.Prelude.{◌≡◌, ◌≤◌, None, IfOk};
ghost use Rattle.spec_limits.specs.Limits.{exceeded, too_many_variables};
ghost use Rattle.order_literals.specs.Numbers.{numbers_of};

use crate::statements_are_few;
use currency_base::NoMemory;
use order_literals::{Numbering, Wanted};
use spec_model::Specification;
use std::alloc::Global;

/// Numbers the statements on a specification that is within its limits.
pub fn number(alloc: Global, spec: &Specification, wanted: &Wanted) -> Result<Numbering, NoMemory>
    requires parts { exceeded spec.now ≡ None }
    requires variables { too_many_variables spec.now ≡ None }
    requires answers { wanted.now.answers ≤ 1000000 }
    ensures { IfOk result (λ n. n ≡ numbers_of spec.now.relations wanted.now) }
{
    statements_are_few();
    let _ = spec.relations().len();
    let _ = spec.rules().len();
    let _ = spec.copies().len();
    Numbering::new(alloc, spec, wanted)
}
