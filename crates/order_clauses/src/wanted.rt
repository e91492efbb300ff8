ghost use Rattle.std.specs.Prelude.{◌≡◌, ◌<◌, OnOk, Some, length, slice_get, true, []};
ghost use Rattle.partial_orders.specs.Pairs.{entity_of};
ghost use Rattle.spec_model.specs.Facts.{IsRelation};
ghost use Rattle.value_names.specs.Names.{name_of};
ghost use Rattle.order_literals.specs.Numbers.{is_wanted};
ghost use Rattle.order_clauses.specs.Added.{Adds, Tells};
ghost use Rattle.order_clauses.specs.Listing.{above_label, above_labels, alike_said, attr_labels, entity_labels, last_label, named_label, other_said, relation_labels, row_labels, top_clause, top_label, value_clause, value_label, wanted_at, wanted_labels};
ghost use Rattle.order_clauses.specs.Subject.{variables, IsWantedRow};

use crate::column::Column;
use crate::pushing::{Scratch, push_axiom, push_distinct, put};
use crate::sayings::Sayings;
use currency_base::{AttrId, EntId, Lit, NoMemory, RelId, RowId};
use order_literals::one_literal;
use refutation_log::{LabelRef, Steps};
use spec_model::Relation;

/// Puts the axioms on current values after the steps: for each attribute of the wanted relations.
pub(crate) fn wanted<'a>(
    sayings: &'a Sayings<'a>,
    steps: &mut Steps,
    scratch: &mut Scratch,
) -> Result<(), NoMemory>
    ensures { OnOk result (Adds sayings.now (wanted_labels sayings.now) steps.old steps.new) }
{
    for rel in 0..sayings.relations() {
        if_wanted(sayings, steps, scratch, RelId(rel as u32))?;
    }
    Ok(())
}

// Those of one relation, if it is wanted.
fn if_wanted<'a>(
    sayings: &'a Sayings<'a>,
    steps: &mut Steps,
    scratch: &mut Scratch,
    rel: RelId,
) -> Result<(), NoMemory>
    requires { rel.0 < length sayings.now.spec.relations }
    ensures { OnOk result (Adds sayings.now (wanted_at sayings.now rel.0) steps.old steps.new) }
{
    if !sayings.is_wanted(rel) {
        return Ok(());
    }
    of_relation(sayings, steps, scratch, rel, sayings.relation(rel))
}

// Those of one wanted relation.
fn of_relation<'a>(
    sayings: &'a Sayings<'a>,
    steps: &mut Steps,
    scratch: &mut Scratch,
    rel: RelId,
    relation: &'a Relation,
) -> Result<(), NoMemory>
    requires is_relation { slice_get sayings.now.spec.relations rel.0 ≡ Some relation.now }
    requires facts { IsRelation relation.now }
    requires wanted { is_wanted sayings.now.wanted.currents rel.0 ≡ true }
    ensures { OnOk result (Adds sayings.now (relation_labels sayings.now relation.now rel) steps.old steps.new) }
{
    for attr in 0..relation.attrs.len() {
        let column = Column {
            sayings,
            relation,
            rel,
            attr: AttrId(attr as u32),
        };
        of_attribute(&column, steps, scratch, relation.entities.len())?;
    }
    Ok(())
}

// Those of one attribute.
fn of_attribute(
    column: &Column<'_>,
    steps: &mut Steps,
    scratch: &mut Scratch,
    entities: usize,
) -> Result<(), NoMemory>
    requires entities { entities ≡ length column.now.relation.entities }
    requires facts { IsRelation column.now.relation }
    requires wanted { is_wanted column.now.subject.wanted.currents column.now.rel.0 ≡ true }
    ensures { OnOk result (Adds column.now.subject (attr_labels column.now.subject column.now.relation column.now.rel
        column.now.attr.0) steps.old steps.new) }
{
    for ent in 0..entities {
        of_entity(column, steps, scratch, EntId(ent as u32))?;
    }
    Ok(())
}

// Those of one entity.
fn of_entity(
    column: &Column<'_>,
    steps: &mut Steps,
    scratch: &mut Scratch,
    ent: EntId,
) -> Result<(), NoMemory>
    requires ent { ent.0 < length column.now.relation.entities }
    requires facts { IsRelation column.now.relation }
    requires wanted { is_wanted column.now.subject.wanted.currents column.now.rel.0 ≡ true }
    ensures { OnOk result (Adds column.now.subject (entity_labels column.now ent.0) steps.old steps.new) }
{
    for row in column.members(ent) {
        of_row(column, steps, scratch, ent, *row)?;
    }
    Ok(())
}

// Those of one row.
fn of_row(
    column: &Column<'_>,
    steps: &mut Steps,
    scratch: &mut Scratch,
    ent: EntId,
    row: RowId,
) -> Result<(), NoMemory>
    requires ent { ent.0 < length column.now.relation.entities }
    requires facts { IsRelation column.now.relation }
    requires row { IsWantedRow column.now row }
    requires of_entity { entity_of column.now.relation.rows row.0 ≡ Some ent.0 }
    ensures { OnOk result (Adds column.now.subject (row_labels column.now ent.0 row) steps.old steps.new) }
{
    above(column, steps, &mut scratch.distinct, ent, row)?;
    push_top(column, steps, &mut scratch.lits, ent, row)?;
    push_last(column, steps, &mut scratch.distinct, row)?;
    push_value(column, steps, &mut scratch.lits, ent, row)
}

// That each other row stands before one that stands last.
fn above(
    column: &Column<'_>,
    steps: &mut Steps,
    distinct: &mut Vec<Lit>,
    ent: EntId,
    row: RowId,
) -> Result<(), NoMemory>
    requires ent { ent.0 < length column.now.relation.entities }
    requires row { IsWantedRow column.now row }
    requires of_entity { entity_of column.now.relation.rows row.0 ≡ Some ent.0 }
    ensures { OnOk result (Adds column.now.subject (above_labels column.now ent.0 row) steps.old steps.new) }
{
    for other in column.members(ent) {
        push_above(column, steps, distinct, ent, row, *other)?;
    }
    Ok(())
}

// That this row does, if it is another.
fn push_above(
    column: &Column<'_>,
    steps: &mut Steps,
    distinct: &mut Vec<Lit>,
    ent: EntId,
    row: RowId,
    other: RowId,
) -> Result<(), NoMemory>
    requires row { IsWantedRow column.now row }
    requires of_entity { entity_of column.now.relation.rows row.0 ≡ Some ent.0 }
    requires other { entity_of column.now.relation.rows other.0 ≡ Some ent.0 }
    ensures { OnOk result (Adds column.now.subject (above_label column.now row other) steps.old steps.new) }
{
    if row == other {
        return Ok(());
    }
    column.facts();
    let lits = [column.not_top(row), column.before(other, row)];
    let label = LabelRef::Above {
        rel: column.rel(),
        attr: column.attr(),
        row,
        other,
    };
    push_axiom(column.sayings(), steps, distinct, label, &lits)
}

// That a row stands last before which all others stand.
fn push_top(
    column: &Column<'_>,
    steps: &mut Steps,
    lits: &mut Vec<Lit>,
    ent: EntId,
    row: RowId,
) -> Result<(), NoMemory>
    requires ent { ent.0 < length column.now.relation.entities }
    requires row { IsWantedRow column.now row }
    requires of_entity { entity_of column.now.relation.rows row.0 ≡ Some ent.0 }
    ensures { OnOk result (Adds column.now.subject (top_label column.now row) steps.old steps.new) }
{
    column.facts();
    one_literal();
    top_lits(column, lits, ent, row)?;
    let label = LabelRef::Top {
        rel: column.rel(),
        attr: column.attr(),
        row,
    };
    push_distinct(column.sayings(), steps, label, lits.as_slice())
}

// The literals of its clause.
fn top_lits(
    column: &Column<'_>,
    lits: &mut Vec<Lit>,
    ent: EntId,
    row: RowId,
) -> Result<(), NoMemory>
    requires ent { ent.0 < length column.now.relation.entities }
    requires row { IsWantedRow column.now row }
    requires of_entity { entity_of column.now.relation.rows row.0 ≡ Some ent.0 }
    ensures { OnOk result (Tells (variables column.now.subject) (top_clause column.now ent.0 row) [] lits.new.items) }
{
    lits.clear();
    put(lits, column.top(row))?;
    for other in column.members(ent) {
        put_other(column, lits, ent, row, *other)?;
    }
    Ok(())
}

// That a row does not stand before another, if it is another.
fn put_other(
    column: &Column<'_>,
    lits: &mut Vec<Lit>,
    ent: EntId,
    row: RowId,
    other: RowId,
) -> Result<(), NoMemory>
    requires of_entity { entity_of column.now.relation.rows row.0 ≡ Some ent.0 }
    requires other { entity_of column.now.relation.rows other.0 ≡ Some ent.0 }
    ensures { OnOk result (Tells (variables column.now.subject) (other_said column.now row other) lits.old.items lits.new.items) }
{
    if other == row {
        return Ok(());
    }
    put(lits, column.not_before(other, row))
}

// That the value of a row that stands last is current.
fn push_last(
    column: &Column<'_>,
    steps: &mut Steps,
    distinct: &mut Vec<Lit>,
    row: RowId,
) -> Result<(), NoMemory>
    requires facts { IsRelation column.now.relation }
    requires row { IsWantedRow column.now row }
    ensures { OnOk result (Adds column.now.subject (last_label column.now row) steps.old steps.new) }
{
    column.facts();
    let lits = [column.not_top(row), column.last(column.name(row))];
    let label = LabelRef::Last {
        rel: column.rel(),
        attr: column.attr(),
        row,
    };
    push_axiom(column.sayings(), steps, distinct, label, &lits)
}

// That of the rows which have a value that is current one stands last, if the row names the value.
fn push_value(
    column: &Column<'_>,
    steps: &mut Steps,
    lits: &mut Vec<Lit>,
    ent: EntId,
    row: RowId,
) -> Result<(), NoMemory>
    requires ent { ent.0 < length column.now.relation.entities }
    requires facts { IsRelation column.now.relation }
    requires row { IsWantedRow column.now row }
    requires of_entity { entity_of column.now.relation.rows row.0 ≡ Some ent.0 }
    ensures { OnOk result (Adds column.now.subject (value_label column.now row) steps.old steps.new) }
{
    if column.name(row) != row {
        return Ok(());
    }
    push_named(column, steps, lits, ent, row)
}

// That of a row that names its value.
fn push_named(
    column: &Column<'_>,
    steps: &mut Steps,
    lits: &mut Vec<Lit>,
    ent: EntId,
    row: RowId,
) -> Result<(), NoMemory>
    requires ent { ent.0 < length column.now.relation.entities }
    requires facts { IsRelation column.now.relation }
    requires row { IsWantedRow column.now row }
    requires of_entity { entity_of column.now.relation.rows row.0 ≡ Some ent.0 }
    requires named { name_of column.now.relation.rows column.now.attr.0 row ≡ row }
    ensures { OnOk result (Adds column.now.subject (named_label column.now row) steps.old steps.new) }
{
    column.facts();
    one_literal();
    value_lits(column, lits, ent, row)?;
    let label = LabelRef::Value {
        rel: column.rel(),
        attr: column.attr(),
        row,
    };
    push_distinct(column.sayings(), steps, label, lits.as_slice())
}

// The literals of its clause.
fn value_lits(
    column: &Column<'_>,
    lits: &mut Vec<Lit>,
    ent: EntId,
    row: RowId,
) -> Result<(), NoMemory>
    requires ent { ent.0 < length column.now.relation.entities }
    requires row { IsWantedRow column.now row }
    requires named { name_of column.now.relation.rows column.now.attr.0 row ≡ row }
    ensures { OnOk result (Tells (variables column.now.subject) (value_clause column.now ent.0 row) [] lits.new.items) }
{
    lits.clear();
    put(lits, column.not_last(row))?;
    for other in column.members(ent) {
        put_alike(column, lits, row, *other)?;
    }
    Ok(())
}

// That a row stands last, if it has the value that another names.
fn put_alike(
    column: &Column<'_>,
    lits: &mut Vec<Lit>,
    row: RowId,
    other: RowId,
) -> Result<(), NoMemory>
    requires { IsWantedRow column.now other }
    ensures { OnOk result (Tells (variables column.now.subject) (alike_said column.now row other) lits.old.items lits.new.items) }
{
    if column.name(other) != row {
        return Ok(());
    }
    put(lits, column.top(other))
}
