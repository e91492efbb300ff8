ghost use Rattle.std.specs.Prelude.{◌≡◌, ◌<◌, ◌≤◌, ℕ, List, Result, length, All, IfOk, IfSome, OnOk};
ghost use Rattle.currency_edge.specs.Fault.{Rose};
ghost use Rattle.spec_model.specs.Facts.{IsRelation, IsGivenPair};
ghost use Rattle.spec_model.specs.declared.relation.Relation.{Relation};
ghost use Rattle.spec_names.specs.Names.{names_of, all_names_of};
ghost use Rattle.bind_faults.specs.Faults.{IsDue, IsDetermined, IsReadFault, IsReadFaultOf};
ghost use Rattle.bind_faults.specs.declared.fault.BindFault.{BindFault};
ghost use Rattle.order_bind.specs.Orders.{Steps};
ghost use Rattle.order_bind.specs.TableOrders.{orders_at, pairs_of_tuples, IsGivenMore, IsOrdersMade, IsOrdersTable};

use crate::add_all;
use crate::tables::pairs::{checked, pairs_of};
use crate::tables::records::records_of;
use crate::tables::table::read_orders;
use bind_faults::{BindFault, find};
use currency_base::{ErrorCode, Name, PairList, RelId, TupleList};
use currency_edge::Shelf;
use spec_model::{Relation, Specification};
use spec_names::{RelationNames, SpecNames};
use std::alloc::Global;
use text_grammar::Named;

/// Adds the pairs of a table to a relation. The names are those of the specification's parts. An unknown
/// relation is refused first, and then what is wrong in the table: the first record whose attribute the
/// relation has not, the first in which a row is unknown, and the first whose rows are one row or of two
/// entities. Want of memory may leave some pairs added.
pub fn bind_orders<S: Shelf>(
    alloc: Global,
    names: &SpecNames,
    spec: &mut Specification,
    relation: &Named,
    document: &Named,
    shelf: &mut S,
) -> Result<(), BindFault>
    requires { names.now ≡ all_names_of spec.old }
    ensures kept { S.texts shelf.new ≡ S.texts shelf.old }
    ensures later { S.faults shelf.old ≤ S.faults shelf.new }
    ensures step { IsDetermined result → IfSome (S.texts shelf.old) (λ told. (made : Result (List Relation) BindFault)
        × IsOrdersMade told spec.old.relations relation.now document.now made × Steps spec.new.relations made result) }
    ensures rules { spec.new.rules ≡ spec.old.rules }
    ensures copies { spec.new.copies ≡ spec.old.copies }
    ensures names { all_names_of spec.new ≡ all_names_of spec.old }
    ensures given { OnOk result (IsGivenMore spec.old.relations spec.new.relations) }
    ensures read_fault { IsReadFault result → Rose (S.faults shelf.old) (S.faults shelf.new) }
    ensures table { (table : List ℕ) → IsReadFaultOf result table
        → IsOrdersTable spec.old.relations relation.now document.now table }
{
    let rel = find(names.relations(), relation, ErrorCode::UnknownName)?;
    let tuples = read_orders(alloc, &document.name, shelf)?;
    give_pairs(alloc, names, spec, rel, &document.name, tuples)
}

/// Adds the pairs that tuples say to the relation at a place.
fn give_pairs(
    alloc: Global,
    names: &SpecNames,
    spec: &mut Specification,
    rel: usize,
    table: &Name,
    tuples: TupleList,
) -> Result<(), BindFault>
    requires names { names.now ≡ all_names_of spec.old }
    requires within { rel < length spec.old.relations }
    ensures step { Steps spec.new.relations (orders_at spec.old.relations rel table.now tuples) result }
    ensures rules { spec.new.rules ≡ spec.old.rules }
    ensures copies { spec.new.copies ≡ spec.old.copies }
    ensures names { all_names_of spec.new ≡ all_names_of spec.old }
    ensures given { OnOk result (IsGivenMore spec.old.relations spec.new.relations) }
    ensures reads { IsReadFault result → ⊥ }
{
    let relation = &spec.relations()[rel];
    let pairs = table_pairs(alloc, names.relation(rel), relation, table, tuples)?;
    match add_all(spec, RelId(rel as u32), pairs.as_slice()) {
        Ok(()) => Ok(()),
        Err(_) => Err(BindFault::NoMemory),
    }
}

/// The pairs that tuples say of a relation, or the first fault.
fn table_pairs(
    alloc: Global,
    names: &RelationNames,
    relation: &Relation,
    table: &Name,
    tuples: TupleList,
) -> Result<PairList, BindFault>
    requires names { names.now ≡ names_of relation.now }
    requires facts { IsRelation relation.now }
    ensures due { IsDue (pairs_of_tuples relation.now table.now tuples) result }
    ensures given { IfOk result (All (IsGivenPair relation.now)) }
{
    let records = records_of(alloc, table, &names.attrs, tuples)?;
    let pairs = pairs_of(alloc, table, &names.rows, records.as_slice())?;
    checked(alloc, table, relation.rows.as_slice(), pairs)
}
