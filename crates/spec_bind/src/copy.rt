ghost use Rattle.std.specs.Prelude.{◌≡◌, ◌≤◌, ℕ, List, IfSome};
ghost use Rattle.currency_edge.specs.Fault.{Rose};
ghost use Rattle.bind_faults.specs.Faults.{IsDetermined, IsReadFault, IsReadFaultOf};
ghost use Rattle.copy_bind.specs.Made.{IsCopyTable};
ghost use Rattle.spec_bind.specs.Bound.{IsCopyingMade, IsLimited};

use bind_faults::BindFault;
use bound_spec::{Bound, add_copy};
use copy_bind::bind_copy;
use copy_syntax::CopyTree;
use currency_edge::Shelf;
use std::alloc::Global;

/// Binds a copy: its copy function comes after the others, unless a limit is then exceeded.
pub fn bind_copying<S: Shelf>(
    alloc: Global,
    bound: Bound,
    tree: &CopyTree,
    shelf: &mut S,
) -> Result<Bound, BindFault>
    ensures kept { S.texts shelf.new ≡ S.texts shelf.old }
    ensures later { S.faults shelf.old ≤ S.faults shelf.new }
    ensures step { IsDetermined result
        → IfSome (S.texts shelf.old) (λ told. IsLimited (IsCopyingMade told bound tree.now) result) }
    ensures read_fault { IsReadFault result → Rose (S.faults shelf.old) (S.faults shelf.new) }
    ensures table { (name : List ℕ) → IsReadFaultOf result name → IsCopyTable bound tree.now name }
{
    match bind_copy(alloc, &bound.names, &bound.spec, tree, shelf) {
        Ok(copy) => add_copy(alloc, bound, copy),
        Err(fault) => Err(fault),
    }
}
