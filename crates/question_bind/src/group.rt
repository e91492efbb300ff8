// What a group of parts asks about.

ghost use Rattle.std.specs.Prelude.{◌≡◌, ◌≤◌, ℕ, List, length, All, IfOk, IfSome};
ghost use Rattle.currency_edge.specs.Fault.{Rose};
ghost use Rattle.bind_faults.specs.Faults.{all_of, and_then, IsDue, IsDetermined, IsReadFault, IsReadFaultOf};
ghost use Rattle.spec_model.specs.Questions.{IsAskedPair};
ghost use Rattle.question_bind.specs.Asked.{asked_in};
ghost use Rattle.question_bind.specs.Bound.{IsTableOf};
ghost use Rattle.question_bind.specs.Steps.{AreNamesOf, IsGroupStep, head_named, within_limit};

use crate::asked::asked_after;
use crate::checked::checked_in;
use crate::heads::{Head, heads_of};
use crate::pairs::pairs_in;
use crate::records::records_in;
use crate::tables::{TableList, tables_of};
use bind_faults::BindFault;
use currency_edge::Shelf;
use question_syntax::AskedTree;
use spec_model::{AskedList, Specification};
use spec_names::SpecNames;
use std::alloc::Global;

/// The most pairs that may be asked about.
const MOST_PAIRS: usize = 10_000_000;

/// The limit that more pairs are above.
const PAIR_LIMIT: u8 = 12;

/// What was asked about so far and what a group of parts asks about, with the tables that the parts name.
/// Each step goes over all parts before the next one begins.
pub fn ask_group<S: Shelf>(
    alloc: Global,
    spec: &Specification,
    names: &SpecNames,
    so_far: AskedList,
    group: &[AskedTree],
    shelf: &mut S,
) -> Result<AskedList, BindFault>
    requires names { AreNamesOf names.now spec.now }
    requires so_far { All (IsAskedPair spec.now.relations) so_far }
    ensures kept { S.texts shelf.new ≡ S.texts shelf.old }
    ensures later { S.faults shelf.old ≤ S.faults shelf.new }
    ensures asked { IsDetermined result → IfSome (S.texts shelf.old) (λ told. IsGroupStep told spec.now.relations so_far
        group.now result) }
    ensures fits { IfOk result (All (IsAskedPair spec.now.relations)) }
    ensures read_fault { IsReadFault result → Rose (S.faults shelf.old) (S.faults shelf.new) }
    ensures table { (name : List ℕ) → IsReadFaultOf result name → IsTableOf spec.now.relations group.now name }
{
    let heads = heads_of(alloc, names, group)?;
    let tables = tables_of(alloc, group, shelf)?;
    ask_read(alloc, spec, names, so_far, group, heads.as_slice(), tables)
}

/// What was asked about so far and what a group asks about, once its heads are found and its tables are
/// read.
fn ask_read(
    alloc: Global,
    spec: &Specification,
    names: &SpecNames,
    so_far: AskedList,
    group: &[AskedTree],
    heads: &[Head],
    tables: TableList,
) -> Result<AskedList, BindFault>
    requires names { AreNamesOf names.now spec.now }
    requires heads { all_of (head_named names.now) group.now ≡ Ok heads.now }
    requires tables { length tables ≡ length group.now }
    ensures { IsDue (and_then (asked_in spec.now.relations heads.now group.now tables) (within_limit so_far)) result }
{
    let records = records_in(alloc, names, heads, group, tables)?;
    let pairs = pairs_in(alloc, names, heads, group, &records)?;
    let checked = checked_in(alloc, spec, heads, group, pairs)?;
    let asked = asked_after(so_far, heads, &checked)?;
    if asked.len() > MOST_PAIRS {
        Err(BindFault::Limit(PAIR_LIMIT))
    } else {
        Ok(asked)
    }
}
