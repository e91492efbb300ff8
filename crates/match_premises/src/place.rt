ghost use Rattle.std.specs.Prelude.{◌≡◌, ◌+◌, ◌<◌, ◌^◌, Some, [], option_map, length, IfOk};
ghost use Rattle.std.specs.List.{find};
ghost use Rattle.currency_base.specs.declared.value.Cmp.TheVariants.{Eq};
ghost use Rattle.denial_rules.specs.Instances.{field_value};
ghost use Rattle.match_premises.specs.Premises.{claim_of, claims_from, has_value, place_claim};

use crate::{Premise, PremiseList};
use currency_base::{AttrId, Cmp, NoMemory, RelId, Row, RowId, Value};
use query_model::Term;
use std::alloc::Global;

/// The rows of an entity of a relation, with the table in which they stand.
#[derive(Clone, Copy)]
pub(crate) struct EntityTable<'a> {
    pub rel: RelId,
    pub rows: &'a [Row],
    pub members: &'a [RowId],
}

/// What terms claim of the attributes of an entity, the first term of the first attribute; nothing is answered where
/// one asks for a value that no row of the entity has.
pub(crate) fn claims(
    alloc: Global,
    table: EntityTable<'_>,
    values: &[Value],
    terms: &[Term],
) -> Result<Option<PremiseList>, NoMemory>
    requires { length terms.now + 1 < 2 ^ 32 }
    ensures { IfOk result (λ found. found ≡ claims_from table.entry.rel table.entry.rows.now table.entry.members.now
        values.now (Some []) 0 terms.now) }
{
    let mut premises = PremiseList::new(alloc);
    for place in 0..terms.len() {
        match place_claim(table, values, AttrId(place as u32), &terms[place]) {
            Some(Some(premise)) => match premises.push(premise) {
                Ok(()) => {}
                Err(error) => return Err(error),
            },
            Some(None) => {}
            None => return Ok(None),
        }
    }
    Ok(Some(premises))
}

// What a term claims of an attribute.
fn place_claim(
    table: EntityTable<'_>,
    values: &[Value],
    attr: AttrId,
    term: &Term,
) -> Option<Option<Premise>>
    ensures { result ≡ place_claim table.entry.rel table.entry.rows.now table.entry.members.now values.now attr term.now }
{
    match term {
        Term::Var(var) => claim_of(table, attr, values.get(*var as usize)),
        Term::Any => Some(None),
        Term::Constant(value) => claim_of(table, attr, Some(value)),
    }
}

// The claim that a value is the current one of an attribute.
fn claim_of(table: EntityTable<'_>, attr: AttrId, value: Option<&Value>) -> Option<Option<Premise>>
    ensures { result ≡ claim_of table.entry.rel table.entry.rows.now table.entry.members.now attr
        (option_map (λ v. v.now) value.entry) }
{
    match first_with(table, attr, value?) {
        Some(row) => Some(Some(Premise {
            rel: table.rel,
            attr,
            row,
        })),
        None => None,
    }
}

// The first row of the entity that has a value of an attribute.
fn first_with(table: EntityTable<'_>, attr: AttrId, value: &Value) -> Option<RowId>
    ensures { result ≡ find (has_value table.entry.rows.now attr value.now) table.entry.members.now }
{
    table
        .members
        .iter()
        .copied()
        .find(|row| has_value(table.rows, attr, value, *row))
}

// Has a row this value of an attribute?
fn has_value(rows: &[Row], attr: AttrId, value: &Value, row: RowId) -> bool
    ensures { result ≡ has_value rows.now attr value.now row }
{
    match value_at(rows, row, attr) {
        Some(own) => own.test(Cmp::Eq, value),
        None => false,
    }
}

// The value of an attribute of a row, if it is there.
fn value_at(rows: &[Row], row: RowId, attr: AttrId) -> Option<&Value>
    ensures { option_map (λ v. v.now) result ≡ field_value rows.now (Some row) attr.0 }
{
    match rows.get(row.0 as usize) {
        Some(row) => row.values.as_slice().get(attr.0 as usize),
        None => None,
    }
}
