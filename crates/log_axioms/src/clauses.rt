ghost use Rattle.std.specs.Prelude.{◌≡◌, ◌==◌, ◌++◌, ◌∷◌, [], Some, IfOk, OnOk, length, map, not, if◌then◌else◌};
ghost use Rattle.std.specs.List.{filter};
ghost use Rattle.entity_rows.specs.Members.{AreEntityRows};
ghost use Rattle.spec_model.specs.Facts.{IsRelation};
ghost use Rattle.log_axioms.specs.Axioms.{given_clause, transitive_clause, above_clause, top_clause, last_clause, value_clause, not_before, top, same_value};
ghost use Rattle.log_axioms.specs.Axioms.{top_among, value_among};

use crate::conditions::{are_two, is_attr, same_entity, same_value};
use crate::entities::own_members;
use crate::signed::{begun, some_clause};
use crate::{Signed, SignedList};
use currency_base::{AttrId, NoMemory, Pair, RelId, RowId};
use entity_rows::EntityRows;
use spec_model::Relation;
use std::alloc::Global;

/// The clause of a given pair.
pub(crate) fn given_clause(
    alloc: Global,
    rel: RelId,
    pair: Pair,
    relation: &Relation,
) -> Result<Option<SignedList>, NoMemory>
    ensures { IfOk result (λ clause. clause ≡ given_clause rel pair.attr pair.earlier pair.later relation.now) }
{
    if !relation.given.has(pair) {
        return Ok(None);
    }
    some_clause(
        alloc,
        &[Signed::before(rel, pair.attr, pair.earlier, pair.later)],
    )
}

/// The clause of three different rows of one entity.
pub(crate) fn transitive_clause(
    alloc: Global,
    rel: RelId,
    attr: AttrId,
    first: RowId,
    second: RowId,
    third: RowId,
    relation: &Relation,
) -> Result<Option<SignedList>, NoMemory>
    ensures { IfOk result (λ clause. clause ≡ transitive_clause rel attr first second third relation.now) }
{
    let rows = relation.rows.as_slice();
    let are_three = are_two(rows, first, second)
        && are_two(rows, second, third)
        && are_two(rows, first, third);
    if !(is_attr(relation, attr) && are_three) {
        return Ok(None);
    }
    some_clause(
        alloc,
        &[
            Signed::not_before(rel, attr, first, second),
            Signed::not_before(rel, attr, second, third),
            Signed::before(rel, attr, first, third),
        ],
    )
}

/// The clause of a row and another of its entity, which stands before it if the row stands last.
pub(crate) fn above_clause(
    alloc: Global,
    rel: RelId,
    attr: AttrId,
    row: RowId,
    other: RowId,
    relation: &Relation,
) -> Result<Option<SignedList>, NoMemory>
    ensures { IfOk result (λ clause. clause ≡ above_clause rel attr row other relation.now) }
{
    if !(is_attr(relation, attr) && are_two(relation.rows.as_slice(), row, other)) {
        return Ok(None);
    }
    some_clause(
        alloc,
        &[
            Signed::not_top(rel, attr, row),
            Signed::before(rel, attr, other, row),
        ],
    )
}

/// The clause of a row that stands last if all others of its entity stand before it.
pub(crate) fn top_clause(
    alloc: Global,
    rel: RelId,
    attr: AttrId,
    row: RowId,
    relation: &Relation,
    members: &EntityRows,
) -> Result<Option<SignedList>, NoMemory>
    requires facts { IsRelation relation.now }
    requires members { AreEntityRows relation.now.rows (length relation.now.entities) members.now }
    ensures { IfOk result (λ clause. clause ≡ top_clause rel attr row relation.now) }
{
    if !is_attr(relation, attr) {
        return Ok(None);
    }
    match own_members(relation, members, row) {
        Some(own) => top_of(alloc, rel, attr, row, own),
        None => Ok(None),
    }
}

/// The clause of a row whose value is the current one if it stands last.
pub(crate) fn last_clause(
    alloc: Global,
    rel: RelId,
    attr: AttrId,
    row: RowId,
    relation: &Relation,
) -> Result<Option<SignedList>, NoMemory>
    ensures { IfOk result (λ clause. clause ≡ last_clause rel attr row relation.now) }
{
    if !(is_attr(relation, attr) && same_entity(relation.rows.as_slice(), row, row)) {
        return Ok(None);
    }
    some_clause(
        alloc,
        &[
            Signed::not_top(rel, attr, row),
            Signed::last(rel, attr, row),
        ],
    )
}

/// The clause of a row whose value is the current one only if a row of its entity with that value stands
/// last.
pub(crate) fn value_clause(
    alloc: Global,
    rel: RelId,
    attr: AttrId,
    row: RowId,
    relation: &Relation,
    members: &EntityRows,
) -> Result<Option<SignedList>, NoMemory>
    requires facts { IsRelation relation.now }
    requires members { AreEntityRows relation.now.rows (length relation.now.entities) members.now }
    ensures { IfOk result (λ clause. clause ≡ value_clause rel attr row relation.now) }
{
    if !is_attr(relation, attr) {
        return Ok(None);
    }
    match own_members(relation, members, row) {
        Some(own) => value_of(alloc, rel, attr, row, relation, own),
        None => Ok(None),
    }
}

// That the row stands last, or another of these rows does not stand before it.
fn top_of(
    alloc: Global,
    rel: RelId,
    attr: AttrId,
    row: RowId,
    members: &[RowId],
) -> Result<Option<SignedList>, NoMemory>
    ensures { IfOk result (λ clause. clause ≡ Some (top_among rel attr row members.now)) }
{
    let mut clause = begun(alloc, Signed::top(rel, attr, row))?;
    add_not_before(&mut clause, rel, attr, row, members)?;
    Ok(Some(clause))
}

// That the row's value is not the current one, or one of these rows that have it stands last.
fn value_of(
    alloc: Global,
    rel: RelId,
    attr: AttrId,
    row: RowId,
    relation: &Relation,
    members: &[RowId],
) -> Result<Option<SignedList>, NoMemory>
    ensures { IfOk result (λ clause. clause ≡ Some (value_among rel attr row relation.now.rows members.now)) }
{
    let mut clause = begun(alloc, Signed::not_last(rel, attr, row))?;
    add_alike(&mut clause, rel, attr, row, relation, members)?;
    Ok(Some(clause))
}

// Puts into the clause that each of these rows but one does not stand before that one.
fn add_not_before(
    clause: &mut SignedList,
    rel: RelId,
    attr: AttrId,
    row: RowId,
    members: &[RowId],
) -> Result<(), NoMemory>
    ensures { OnOk result (clause.new ≡ clause.old ++ map (λ other. not_before rel attr other row)
        (filter (λ other. not (row.0 == other.0)) members.now)) }
{
    for other in members {
        push_if(
            clause,
            !(row.0 == other.0),
            Signed::not_before(rel, attr, *other, row),
        )?;
    }
    Ok(())
}

// Puts into the clause that one of these rows that have a row's value stands last.
fn add_alike(
    clause: &mut SignedList,
    rel: RelId,
    attr: AttrId,
    row: RowId,
    relation: &Relation,
    members: &[RowId],
) -> Result<(), NoMemory>
    ensures { OnOk result (clause.new ≡ clause.old ++ map (top rel attr)
        (filter (same_value relation.now.rows attr.0 row) members.now)) }
{
    for other in members {
        let wanted = same_value(relation.rows.as_slice(), attr, row, *other);
        push_if(clause, wanted, Signed::top(rel, attr, *other))?;
    }
    Ok(())
}

// Puts a statement into the clause, if it is wanted.
fn push_if(clause: &mut SignedList, wanted: bool, signed: Signed) -> Result<(), NoMemory>
    ensures { OnOk result (clause.new ≡ clause.old ++ (if wanted then signed ∷ [] else [])) }
{
    if wanted {
        return clause.push(signed);
    }
    Ok(())
}
