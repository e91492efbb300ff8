ghost use Rattle.std.specs.Prelude.{◌≡◌, ◌+◌, ◌<◌, ◌≤◌, if◌then◌else◌, length, All, IfOk, OnOk};
ghost use Rattle.std.specs.BTreeSet.{insert_key};
ghost use Rattle.partial_orders.specs.Pairs.{pair_cmp};
ghost use Rattle.spec_model.specs.Facts.{IsGivenPair};
ghost use Rattle.kept_items.specs.Marked.{is_marked};
ghost use Rattle.kept_items.specs.Steps.{marked, marked_relation};

use crate::marks::take_mark;
use currency_base::{NoMemory, Pair, Rows};
use spec_duplicates::{copied_attrs, copied_names, copied_rows};
use spec_model::{Pairs, Relation};
use std::alloc::Global;

/// The relation with its given pairs that are marked. Goes on past the marks of all its given pairs.
pub(crate) fn kept_relation(
    alloc: Global,
    relation: &Relation,
    marks: &[bool],
    at: &mut usize,
) -> Result<Relation, NoMemory>
    requires pairs { All (IsGivenPair relation.now) relation.now.given }
    requires marks { at.old + length relation.now.given ≤ length marks.now }
    ensures kept { IfOk result (λ kept. kept ≡ marked_relation marks.now at.old relation.now) }
    ensures next { OnOk result (at.new ≡ at.old + length relation.now.given) }
{
    Ok(Relation {
        name: relation.name.duplicate(alloc)?,
        attrs: copied_attrs(alloc, &relation.attrs)?,
        rows: copied_rows(alloc, &relation.rows)?,
        entities: copied_names(alloc, &relation.entities)?,
        given: kept_given(alloc, relation, marks, at)?,
    })
}

/// The given pairs that are marked.
fn kept_given(
    alloc: Global,
    relation: &Relation,
    marks: &[bool],
    at: &mut usize,
) -> Result<Pairs, NoMemory>
    requires pairs { All (IsGivenPair relation.now) relation.now.given }
    requires marks { at.old + length relation.now.given ≤ length marks.now }
    ensures kept { IfOk result (λ pairs. pairs ≡ marked marks.now at.old relation.now.given) }
    ensures next { OnOk result (at.new ≡ at.old + length relation.now.given) }
{
    let mut kept = Pairs::new(alloc);
    for pair in relation.given.iter() {
        put_pair(&relation.rows, *pair, marks, at, &mut kept)?;
    }
    Ok(kept)
}

/// Puts a pair of these rows in, if it is marked.
fn put_pair(
    rows: &Rows,
    pair: Pair,
    marks: &[bool],
    at: &mut usize,
    kept: &mut Pairs,
) -> Result<(), NoMemory>
    requires earlier { pair.earlier.0 < length rows.now }
    requires later { pair.later.0 < length rows.now }
    requires marks { at.old < length marks.now }
    ensures kept { OnOk result (kept.new ≡ (if is_marked marks.now at.old then insert_key pair_cmp kept.old pair else kept.old)) }
    ensures next { OnOk result (at.new ≡ at.old + 1) }
{
    if !take_mark(marks, at) {
        return Ok(());
    }
    match kept.add(rows, pair) {
        Ok(()) => Ok(()),
        Err(_) => Err(NoMemory),
    }
}
