//! Which claims on current values forced pairs tell.

ghost use Rattle.std.specs.Prelude.{◌≡◌, ◌<◌, true, All, List, Some, length, map, slice_get};
ghost use Rattle.denial_rules.specs.Instances.{field_value};
ghost use Rattle.posed_facts.specs.Facts.{IsPlaced};
ghost use Rattle.spec_model.specs.Facts.{AreRelations};
ghost use Rattle.spec_model.specs.declared.relation.Relation.{Relation as RelationValue};
ghost use Rattle.forced_values.specs.Values.{AreRowsWith, GivesWay, IsClaimForced, grouping_of};

use currency_base::{AttrId, Cmp, Pair, RowId, Rows, Value};
use entity_lists::EntityLists;
use forced_closure::Closure;
use match_premises::Premise;
use spec_model::{Relation, Specification};

/// Does each other row of the claim's entity have its value, or is it forced to stand before its row? Takes time in proportion
/// to the rows of the entity, and no memory.
pub(crate) fn is_claim_forced(
    spec: &Specification,
    closure: &Closure<'_>,
    groups: &[EntityLists],
    claim: Premise,
) -> bool
    requires closure { closure.now.spec ≡ spec.now }
    requires groups { groups.now ≡ map grouping_of spec.now.relations }
    requires claim { IsPlaced spec.now.relations claim }
    ensures { result ≡ true → IsClaimForced spec.now claim }
{
    let relations = spec.relations();
    let rows = rows_with(relations, groups, claim);
    all_give_way(&relations[claim.rel.0 as usize].rows, closure, claim, rows)
}

/// The rows of the claim's entity.
fn rows_with<'a>(relations: &[Relation], groups: &'a [EntityLists], claim: Premise) -> &'a [RowId]
    requires relations { AreRelations relations.now }
    requires groups { groups.now ≡ map grouping_of relations.now }
    requires claim { IsPlaced relations.now claim }
    ensures { AreRowsWith relations.now claim result.now }
{
    let rel = claim.rel.0 as usize;
    let row = relations[rel].rows.row(claim.row);
    groups[rel].of_entity(row.entity)
}

/// Does each of these rows give way to the claim's row?
fn all_give_way(table: &Rows, closure: &Closure<'_>, claim: Premise, rows: &[RowId]) -> bool
    requires table { All (λ row. claim.attr.0 < length row.values) table.now }
    requires claim { claim.row.0 < length table.now }
    requires rows { All (λ row. row.0 < length table.now) rows.now }
    requires rel { claim.rel.0 < length closure.now.spec.relations }
    requires attr { (r : RelationValue) → slice_get closure.now.spec.relations claim.rel.0 ≡ Some r
        → claim.attr.0 < length r.attrs }
    ensures { result ≡ true → All (GivesWay closure.now.spec claim table.now) rows.now }
{
    for row in rows {
        if !gives_way(table, closure, claim, *row) {
            return false;
        }
    }
    true
}

/// Does the row have the value that is claimed, or is it forced to stand before the claim's row?
fn gives_way(table: &Rows, closure: &Closure<'_>, claim: Premise, row: RowId) -> bool
    requires table { All (λ row. claim.attr.0 < length row.values) table.now }
    requires claim { claim.row.0 < length table.now }
    requires row { row.0 < length table.now }
    requires rel { claim.rel.0 < length closure.now.spec.relations }
    requires attr { (r : RelationValue) → slice_get closure.now.spec.relations claim.rel.0 ≡ Some r
        → claim.attr.0 < length r.attrs }
    ensures { result ≡ true → GivesWay closure.now.spec claim table.now row }
{
    if have_one_value(table, claim.attr, row, claim.row) {
        return true;
    }
    let pair = Pair {
        attr: claim.attr,
        earlier: row,
        later: claim.row,
    };
    closure.has(claim.rel, pair)
}

/// Do two rows have the same value of the attribute?
fn have_one_value(table: &Rows, attr: AttrId, one: RowId, other: RowId) -> bool
    requires table { All (λ row. attr.0 < length row.values) table.now }
    requires one { one.0 < length table.now }
    requires other { other.0 < length table.now }
    ensures { result ≡ true → field_value table.now (Some one) attr.0 ≡ field_value table.now (Some other) attr.0 }
{
    value_of(table, attr, one).test(Cmp::Eq, value_of(table, attr, other))
}

/// The value of a row.
fn value_of(table: &Rows, attr: AttrId, row: RowId) -> &Value
    requires table { All (λ row. attr.0 < length row.values) table.now }
    requires row { row.0 < length table.now }
    ensures { field_value table.now (Some row) attr.0 ≡ Some result.now }
{
    table.row(row).values.get(attr.0 as usize)
}
