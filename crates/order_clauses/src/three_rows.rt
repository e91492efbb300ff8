ghost use Rattle.std.specs.Prelude.{◌≡◌, ◌<◌, ◌∷◌, [], Some, length, slice_get, IfOk, OnOk};
ghost use Rattle.spec_model.specs.declared.relation.Relation.{Relation};
ghost use Rattle.refutation_log.specs.declared.step.Label.TheVariants as label;
ghost use Rattle.order_literals.specs.Numbers.{numbers_of};
ghost use Rattle.order_literals.specs.Statements.{statements_of};
ghost use Rattle.order_clauses.specs.Added.{Adds};
ghost use Rattle.order_clauses.specs.Clauses.{AreTransitive};
ghost use Rattle.order_clauses.specs.Listing.{members_of, second_labels, third_labels, three_label, three_labels, three_of};
ghost use Rattle.order_clauses.specs.Subject.{variables, AreThree};

use crate::column::Column;
use crate::pushing::push_axiom;
use crate::sayings::Sayings;
use currency_base::{AttrId, EntId, Lit, NoMemory, RelId, RowId};
use order_literals::{Numbering, Wanted, one_literal};
use refutation_log::{LabelRef, Steps};
use spec_model::Specification;
use std::alloc::Global;

/// The axioms on the order of three rows of one entity in one attribute: of each three rows two clauses, one
/// for each way round, under one label each.
pub fn transitive(
    alloc: Global,
    spec: &Specification,
    numbering: &Numbering,
    wanted: &Wanted,
    rel: RelId,
    attr: AttrId,
    ent: EntId,
) -> Result<Steps, NoMemory>
    requires numbering { numbering.now ≡ numbers_of spec.now.relations wanted.now }
    requires rel { rel.0 < length spec.now.relations }
    requires attr { (r : Relation) → slice_get spec.now.relations rel.0 ≡ Some r → attr.0 < length r.attrs }
    requires ent { (r : Relation) → slice_get spec.now.relations rel.0 ≡ Some r → ent.0 < length r.entities }
    ensures { IfOk result (AreTransitive spec.now (statements_of numbering.now) rel attr ent.0) }
{
    over(alloc, spec, numbering, wanted, rel, attr, ent)
}

// The same, all lent for one lifetime.
fn over<'a>(
    alloc: Global,
    spec: &'a Specification,
    numbering: &'a Numbering,
    wanted: &'a Wanted,
    rel: RelId,
    attr: AttrId,
    ent: EntId,
) -> Result<Steps, NoMemory>
    requires numbering { numbering.now ≡ numbers_of spec.now.relations wanted.now }
    requires rel { rel.0 < length spec.now.relations }
    requires attr { (r : Relation) → slice_get spec.now.relations rel.0 ≡ Some r → attr.0 < length r.attrs }
    requires ent { (r : Relation) → slice_get spec.now.relations rel.0 ≡ Some r → ent.0 < length r.entities }
    ensures { IfOk result (AreTransitive spec.now (statements_of numbering.now) rel attr ent.0) }
{
    let sayings = Sayings {
        spec,
        numbering,
        wanted,
    };
    of_attribute(alloc, &sayings, rel, attr, ent)
}

// Those of an attribute and an entity.
fn of_attribute<'a>(
    alloc: Global,
    sayings: &'a Sayings<'a>,
    rel: RelId,
    attr: AttrId,
    ent: EntId,
) -> Result<Steps, NoMemory>
    requires rel { rel.0 < length sayings.now.spec.relations }
    requires attr { (r : Relation) → slice_get sayings.now.spec.relations rel.0 ≡ Some r → attr.0 < length r.attrs }
    requires ent { (r : Relation) → slice_get sayings.now.spec.relations rel.0 ≡ Some r → ent.0 < length r.entities }
    ensures { IfOk result (AreTransitive sayings.now.spec (variables sayings.now) rel attr ent.0) }
{
    let column = Column {
        sayings,
        relation: sayings.relation(rel),
        rel,
        attr,
    };
    of_members(alloc, &column, ent)
}

// Those of an entity, with the steps for them.
fn of_members(alloc: Global, column: &Column<'_>, ent: EntId) -> Result<Steps, NoMemory>
    requires { ent.0 < length column.now.relation.entities }
    ensures { IfOk result (AreTransitive column.now.subject.spec (variables column.now.subject) column.now.rel column.now.attr ent.0) }
{
    column.facts();
    one_literal();
    let mut steps = Steps::new(alloc);
    put_members(alloc, column, &mut steps, ent)?;
    Ok(steps)
}

// Puts them after the steps.
fn put_members(
    alloc: Global,
    column: &Column<'_>,
    steps: &mut Steps,
    ent: EntId,
) -> Result<(), NoMemory>
    requires { ent.0 < length column.now.relation.entities }
    ensures { OnOk result (Adds column.now.subject (three_of column.now ent.0) steps.old steps.new) }
{
    let mut distinct = Vec::new(alloc);
    of_rows(column, steps, &mut distinct, ent, column.members(ent))
}

// Those of its rows.
fn of_rows(
    column: &Column<'_>,
    steps: &mut Steps,
    distinct: &mut Vec<Lit>,
    ent: EntId,
    members: &[RowId],
) -> Result<(), NoMemory>
    requires { members.now ≡ members_of column.now.relation ent.0 }
    ensures { OnOk result (Adds column.now.subject (three_labels column.now members.now) steps.old steps.new) }
{
    for third in 0..members.len() {
        with_third(column, steps, distinct, ent, members, third)?;
    }
    Ok(())
}

// Those whose last row, by their places, is this one.
fn with_third(
    column: &Column<'_>,
    steps: &mut Steps,
    distinct: &mut Vec<Lit>,
    ent: EntId,
    members: &[RowId],
    third: usize,
) -> Result<(), NoMemory>
    requires members { members.now ≡ members_of column.now.relation ent.0 }
    requires third { third < length members.now }
    ensures { OnOk result (Adds column.now.subject (third_labels column.now members.now third) steps.old steps.new) }
{
    for second in 0..third {
        with_second(column, steps, distinct, ent, members, third, second)?;
    }
    Ok(())
}

// Those whose last two rows are these.
fn with_second(
    column: &Column<'_>,
    steps: &mut Steps,
    distinct: &mut Vec<Lit>,
    ent: EntId,
    members: &[RowId],
    third: usize,
    second: usize,
) -> Result<(), NoMemory>
    requires members { members.now ≡ members_of column.now.relation ent.0 }
    requires third { third < length members.now }
    requires second { second < third }
    ensures { OnOk result (Adds column.now.subject (second_labels column.now members.now third second) steps.old steps.new) }
{
    let last = members[third];
    let middle = members[second];
    for first in 0..second {
        both_ways(column, steps, distinct, members[first], middle, last)?;
    }
    Ok(())
}

// Those of three rows, both ways round.
fn both_ways(
    column: &Column<'_>,
    steps: &mut Steps,
    distinct: &mut Vec<Lit>,
    first: RowId,
    second: RowId,
    third: RowId,
) -> Result<(), NoMemory>
    requires { AreThree column.now.relation.rows first second third }
    ensures { OnOk result (Adds column.now.subject (three_label column.now (Some first) (Some second) (Some third))
        steps.old steps.new) }
{
    one_way(column, steps, distinct, first, second, third)?;
    one_way(column, steps, distinct, third, second, first)
}

// That of three rows, in one order.
fn one_way(
    column: &Column<'_>,
    steps: &mut Steps,
    distinct: &mut Vec<Lit>,
    first: RowId,
    second: RowId,
    third: RowId,
) -> Result<(), NoMemory>
    requires { AreThree column.now.relation.rows first second third }
    ensures { OnOk result (Adds column.now.subject (label.Transitive column.now.rel column.now.attr first second
        third ∷ []) steps.old steps.new) }
{
    column.facts();
    let lits = [
        column.not_before(first, second),
        column.not_before(second, third),
        column.before(first, third),
    ];
    let label = LabelRef::Transitive {
        rel: column.rel(),
        attr: column.attr(),
        first,
        second,
        third,
    };
    push_axiom(column.sayings(), steps, distinct, label, &lits)
}
