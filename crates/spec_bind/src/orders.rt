ghost use Rattle.std.specs.Prelude.{◌≡◌, ◌≤◌, ℕ, List, IfSome};
ghost use Rattle.currency_edge.specs.Fault.{Rose};
ghost use Rattle.bind_faults.specs.Faults.{IsDetermined, IsReadFault, IsReadFaultOf};
ghost use Rattle.order_bind.specs.TableOrders.{IsOrdersTable};
ghost use Rattle.spec_bind.specs.Bound.{IsTableMade, IsLimited};

use bind_faults::BindFault;
use bound_spec::Bound;
use currency_edge::Shelf;
use order_bind::tables::bind_orders;
use std::alloc::Global;
use text_grammar::Named;

/// Binds a table of given pairs. More given pairs exceed no limit.
pub fn bind_table<S: Shelf>(
    alloc: Global,
    bound: Bound,
    relation: &Named,
    document: &Named,
    shelf: &mut S,
) -> Result<Bound, BindFault>
    ensures kept { S.texts shelf.new ≡ S.texts shelf.old }
    ensures later { S.faults shelf.old ≤ S.faults shelf.new }
    ensures step { IsDetermined result
        → IfSome (S.texts shelf.old) (λ told. IsLimited (IsTableMade told bound relation.now document.now) result) }
    ensures read_fault { IsReadFault result → Rose (S.faults shelf.old) (S.faults shelf.new) }
    ensures table { (name : List ℕ) → IsReadFaultOf result name → IsOrdersTable bound.relations relation.now document.now name }
{
    let Bound {
        mut spec,
        names,
        rows,
    } = bound;
    match bind_orders(alloc, &names, &mut spec, relation, document, shelf) {
        Ok(()) => Ok(Bound { spec, names, rows }),
        Err(fault) => Err(fault),
    }
}
