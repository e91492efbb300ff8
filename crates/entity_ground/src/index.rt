ghost use Rattle.std.specs.Prelude.{◌≡◌, ◌≤◌, nat_lt, nat_le, Some, IfOk, length, slice_range, option_map};
ghost use Rattle.std.specs.List.{filter};
ghost use Rattle.std.specs.Option.{option_cmp};
ghost use Rattle.currency_base.specs.Values.{value_cmp};
ghost use Rattle.entity_ground.specs.Lookups.{IsByValue, StartsAt, EndsAt, key_of, rank_to, is_alike};

use currency_base::{AttrId, NoMemory, Row, RowId, Value};
use std::alloc::Global;
use std::cmp::Ordering;
use std::marker::Model;

/// Some rows by their values of an attribute. Contracts see the table, the attribute and the rows as they
/// were given.
#[derive(Drop)]
pub(crate) struct Index<'a> {
    table: &'a [Row],
    attr: AttrId,
    members: &'a [RowId],
    // the rows, those of lower values first and those of equal values as they were given
    by_value: Vec<RowId>,
}

impl<'a> Model for Index<'a> {
    ghost use Rattle.entity_ground.specs.Lookups.{Indexed, IsByValue};

    ghost Value = { Indexed };

    ghost view = { λ i. record { table = i.table.now; attr = i.attr; members = i.members.now } };

    ghost invariant = { λ i. IsByValue i.table.now i.attr i.members.now i.by_value.items };
}

impl<'a> Index<'a> {
    /// The index of these rows.
    pub(crate) fn new(
        alloc: Global,
        table: &'a [Row],
        attr: AttrId,
        members: &'a [RowId],
    ) -> Result<Index<'a>, NoMemory>
        ensures { IfOk result (λ index. index ≡ record { table = table.now; attr = attr; members = members.now }) }
    {
        let by_value = match sorted_by_value(alloc, table, attr, members) {
            Ok(by_value) => by_value,
            Err(NoMemory) => return Err(NoMemory),
        };
        Ok(Index {
            table,
            attr,
            members,
            by_value,
        })
    }

    /// The rows of the table.
    pub(crate) fn table(&self) -> &[Row]
        ensures { result.now ≡ self.now.table }
    {
        self.table
    }

    /// The rows whose value is equal to this one, as they were given.
    pub(crate) fn alike(&self, value: &Value) -> &[RowId]
        ensures { result.now ≡ filter (is_alike self.now.table self.now.attr (Some value.now)) self.now.members }
    {
        let (start, end) = span_of(self.table, self.attr, self.members, &self.by_value, value);
        &self.by_value[start..end]
    }
}

// The rows by their values; those of equal values stay as they stand.
fn sorted_by_value(
    alloc: Global,
    table: &[Row],
    attr: AttrId,
    members: &[RowId],
) -> Result<Vec<RowId>, NoMemory>
    ensures { IfOk result (λ rows. IsByValue table.now attr members.now rows.items) }
{
    let mut rows = Vec::new(alloc);
    let Ok(()) = rows.extend_from_slice(members) else {
        return Err(NoMemory);
    };
    let Ok(()) = rows.sort_by(|a, b| order_of(table, attr, *a, *b)) else {
        return Err(NoMemory);
    };
    Ok(rows)
}

// Where among rows that stand by their values those of this value start and end.
fn span_of(
    table: &[Row],
    attr: AttrId,
    members: &[RowId],
    by_value: &[RowId],
    value: &Value,
) -> (usize, usize)
    requires { IsByValue table.now attr members.now by_value.now }
    ensures order { result.0 ≤ result.1 }
    ensures within { result.1 ≤ length by_value.now }
    ensures rows { slice_range by_value.now result.0 result.1 ≡ filter (is_alike table.now attr (Some value.now)) members.now }
{
    let start = start_of(table, attr, members, by_value, value);
    (start, end_of(table, attr, members, by_value, value))
}

// How many rows have a value below this one.
fn start_of(
    table: &[Row],
    attr: AttrId,
    members: &[RowId],
    by_value: &[RowId],
    value: &Value,
) -> usize
    requires { IsByValue table.now attr members.now by_value.now }
    ensures bound { result ≤ length by_value.now }
    ensures at { StartsAt table.now attr value.now by_value.now result }
{
    by_value.partition_point(|row| is_below(table, attr, *row, value))
}

// How many rows have a value up to this one.
fn end_of(
    table: &[Row],
    attr: AttrId,
    members: &[RowId],
    by_value: &[RowId],
    value: &Value,
) -> usize
    requires { IsByValue table.now attr members.now by_value.now }
    ensures bound { result ≤ length by_value.now }
    ensures at { EndsAt table.now attr value.now by_value.now result }
{
    by_value.partition_point(|row| is_up_to(table, attr, *row, value))
}

// A row's value of an attribute, if it has one.
fn value_of(table: &[Row], attr: AttrId, row: RowId) -> Option<&Value>
    ensures { option_map (λ v. v.now) result ≡ key_of table.now attr row }
{
    let row = table.get(row.0 as usize)?;
    row.values.as_slice().get(attr.0 as usize)
}

// How the values of two rows stand.
fn order_of(table: &[Row], attr: AttrId, a: RowId, b: RowId) -> Ordering
    ensures { result ≡ option_cmp value_cmp (key_of table.now attr a) (key_of table.now attr b) }
{
    match (value_of(table, attr, a), value_of(table, attr, b)) {
        (Some(a), Some(b)) => a.cmp(b),
        (Some(_), None) => Ordering::Greater,
        (None, Some(_)) => Ordering::Less,
        (None, None) => Ordering::Equal,
    }
}

// How the value of a row stands to another. Where it has none it stands below.
fn order_to(table: &[Row], attr: AttrId, row: RowId, value: &Value) -> Ordering
    ensures { result ≡ option_cmp value_cmp (key_of table.now attr row) (Some value.now) }
{
    match value_of(table, attr, row) {
        Some(own) => own.cmp(value),
        None => Ordering::Less,
    }
}

// Is the value of a row below another?
fn is_below(table: &[Row], attr: AttrId, row: RowId, value: &Value) -> bool
    ensures { result ≡ nat_lt (rank_to table.now attr value.now row) 1 }
{
    match order_to(table, attr, row, value) {
        Ordering::Less => true,
        Ordering::Equal => false,
        Ordering::Greater => false,
    }
}

// Is it below or equal?
fn is_up_to(table: &[Row], attr: AttrId, row: RowId, value: &Value) -> bool
    ensures { result ≡ nat_le (rank_to table.now attr value.now row) 1 }
{
    match order_to(table, attr, row, value) {
        Ordering::Less => true,
        Ordering::Equal => true,
        Ordering::Greater => false,
    }
}
