ghost use Rattle.std.specs.Prelude.{◌≡◌, ◌≤◌, ℕ, List, IfOk, IfSome};
ghost use Rattle.currency_edge.specs.Fault.{Rose};
ghost use Rattle.bind_faults.specs.Faults.{IsDetermined, IsReadFault, IsReadFaultOf};
ghost use Rattle.bound_spec.specs.Growth.{IsWithinLimits, nothing};
ghost use Rattle.spec_bind.specs.Bound.{IsSpecBound, TableDue};

use crate::statement::bind_statement;
use bind_faults::BindFault;
use bound_spec::{Bound, within_limits};
use currency_edge::Shelf;
use spec_model::Specification;
use spec_syntax::SpecTree;
use std::alloc::Global;

/// The specification that the statements say, with the tables that they name. Statements are bound in
/// the order of the text, each whole before the next, and then within limits 4 to 9; limits 10 and 11
/// come after all of them. The first check that fails is the answer.
pub fn bind_spec<S: Shelf>(
    alloc: Global,
    tree: &SpecTree,
    shelf: &mut S,
) -> Result<Specification, BindFault>
    ensures kept { S.texts shelf.new ≡ S.texts shelf.old }
    ensures later { S.faults shelf.old ≤ S.faults shelf.new }
    ensures bound { IsDetermined result
        → IfSome (S.texts shelf.old) (λ told. IsSpecBound told tree.now result) }
    ensures read_fault { IsReadFault result → Rose (S.faults shelf.old) (S.faults shelf.new) }
    ensures table_due { (name : List ℕ) → IsReadFaultOf result name
        → IfSome (S.texts shelf.old) (λ told. TableDue told nothing tree.now.statements name) }
    ensures within { IfOk result IsWithinLimits }
{
    let mut bound = Bound::new(alloc);
    for statement in tree.statements.as_slice() {
        bound = match bind_statement(alloc, bound, statement, shelf) {
            Ok(next) => next,
            Err(fault) => return Err(fault),
        };
    }
    within_limits(alloc, bound)
}
