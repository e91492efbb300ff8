ghost use Rattle.std.specs.Prelude.{◌≡◌, ◌≤◌, ℕ, List, IfSome};
ghost use Rattle.currency_edge.specs.Fault.{Rose};
ghost use Rattle.bind_faults.specs.Faults.{IsDetermined, IsReadFault, IsReadFaultOf};
ghost use Rattle.relation_bind.specs.Relations.{IsTableOf};
ghost use Rattle.bound_spec.specs.Growth.{relation_names};
ghost use Rattle.spec_bind.specs.Bound.{IsRelationMade, IsLimited};

use bind_faults::BindFault;
use bound_spec::{Bound, add_relation};
use currency_edge::Shelf;
use relation_bind::{Declaration, bind_relation};
use std::alloc::Global;

/// Binds a declaration: its relation comes after the others, unless a limit is then exceeded.
pub fn bind_declaration<S: Shelf>(
    alloc: Global,
    bound: Bound,
    declaration: &Declaration,
    shelf: &mut S,
) -> Result<Bound, BindFault>
    ensures kept { S.texts shelf.new ≡ S.texts shelf.old }
    ensures later { S.faults shelf.old ≤ S.faults shelf.new }
    ensures step { IsDetermined result
        → IfSome (S.texts shelf.old) (λ told. IsLimited (IsRelationMade told bound declaration.now) result) }
    ensures read_fault { IsReadFault result → Rose (S.faults shelf.old) (S.faults shelf.new) }
    ensures table { (name : List ℕ) → IsReadFaultOf result name
        → IsTableOf (relation_names bound) declaration.now name }
{
    match bind_relation(alloc, bound.names.relations(), declaration, shelf) {
        Ok(relation) => {
            let (relation, names) = relation.into_parts();
            add_relation(alloc, bound, relation, names)
        }
        Err(fault) => Err(fault),
    }
}
