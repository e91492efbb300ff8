ghost use Rattle.std.specs.Prelude.{◌≡◌, ◌==◌, ◌-◌, ◌<◌, true, Contains, List, Some, IfOk, map, option_map, slice_get};
ghost use Rattle.std.specs.List.{find};
ghost use Rattle.std.specs.Option.{is_some};
ghost use Rattle.currency_base.specs.declared.value.Value.TheVariants.{Text};
ghost use Rattle.denial_rules.specs.Instances.{field_value};
ghost use Rattle.entity_rows.specs.Members.{members};
ghost use Rattle.match_premises.specs.Premises.{has_value};
ghost use Rattle.spec_model.specs.Facts.{IsRelation};
ghost use Rattle.match_candidates.specs.Places.{has_in, is_name};
ghost use Rattle.match_candidates.specs.Tables.{AreEntities, AreOfRows, HaveSame, IsOnly};
ghost use Rattle.match_candidates.specs.Ways.{AreChoices};

use currency_base::{Cmp, EntId, Name, NameList, NoMemory, Row, RowId, Tuple, Value};
use entity_rows::{EntityRows, entity_rows};
use spec_model::Relation;
use std::alloc::Global;
use std::cmp::Ordering;
use std::marker::Model;

/// A relation with the names of its entities as values, and with their rows. Contracts see the relation.
#[derive(Drop)]
pub(crate) struct RelationTable<'a> {
    relation: &'a Relation,
    names: Tuple,
    rows: EntityRows,
    all: Vec<EntId>,
}

impl<'a> Model for RelationTable<'a> {
    ghost use Rattle.match_candidates.specs.Tables.{IsTable};
    ghost use Rattle.spec_model.specs.declared.relation.Relation.{Relation};

    ghost Value = { Relation };

    ghost view = { λ t. t.relation.now };

    ghost invariant = { λ t. IsTable t.relation.now t.names t.rows t.all.items };
}

impl<'a> RelationTable<'a> {
    /// The table of a relation. Takes time in proportion to its rows and entities.
    pub(crate) fn new(alloc: Global, relation: &'a Relation) -> Result<RelationTable<'a>, NoMemory>
        requires { IsRelation relation.now }
        ensures { IfOk result (λ table. table ≡ relation.now) }
    {
        let names = name_values(alloc, &relation.entities)?;
        let rows = entity_rows(alloc, relation)?;
        let all = all_entities(alloc, relation)?;
        Ok(RelationTable {
            relation,
            names,
            rows,
            all,
        })
    }

    /// All entities.
    pub(crate) fn all(&self) -> &[EntId]
        ensures { AreEntities self.now result.now }
    {
        self.all.as_slice()
    }

    /// Has an entity a value at a place?
    pub(crate) fn has(&self, ent: EntId, place: usize, value: &Value) -> bool
        ensures { result ≡ has_in self.now ent place value.now }
    {
        if place == 0 {
            return is_named(self.relation.entities.as_slice(), ent, value);
        }
        let rows = self.relation.rows.as_slice();
        has_row(rows, self.rows_of(ent), place - 1, value)
    }

    /// The values that an entity has at a place.
    pub(crate) fn choices(
        &'a self,
        alloc: Global,
        ent: EntId,
        place: usize,
    ) -> Result<Vec<&'a Value>, NoMemory>
        ensures { IfOk result (λ list. AreChoices (Some self.now) ent place (map (λ v. v.now) list.items)) }
    {
        if place == 0 {
            return name_of(alloc, self.names.as_slice(), ent);
        }
        let rows = self.relation.rows.as_slice();
        let values = values_of(alloc, rows, self.rows_of(ent), place - 1)?;
        distinct(alloc, values)
    }

    /// The rows of an entity.
    pub(crate) fn rows_of(&self, ent: EntId) -> &[RowId]
        ensures { result.now ≡ members self.now.rows ent.0 }
    {
        match self.rows.as_slice().get(ent.0 as usize) {
            Some(own) => own.as_slice(),
            None => &[],
        }
    }
}

// Names as values.
fn name_values(alloc: Global, names: &NameList) -> Result<Tuple, NoMemory>
    ensures { IfOk result (λ values. values ≡ map (λ name. Text name) names.now) }
{
    let mut values = Tuple::new(alloc);
    for name in names.as_slice() {
        values.push(Value::Text(name.duplicate(alloc)?))?;
    }
    Ok(values)
}

// All entities of a relation.
fn all_entities(alloc: Global, relation: &Relation) -> Result<Vec<EntId>, NoMemory>
    requires { IsRelation relation.now }
    ensures { IfOk result (λ all. AreEntities relation.now all.items) }
{
    let mut all = Vec::new(alloc);
    for ent in 0..relation.entities.len() {
        all.push(EntId(ent as u32))?;
    }
    Ok(all)
}

// Is a value the name of an entity?
fn is_named(names: &[Name], ent: EntId, value: &Value) -> bool
    ensures { result ≡ is_name (slice_get names.now ent.0) value.now }
{
    match names.get(ent.0 as usize) {
        Some(name) => is_text(value, name),
        None => false,
    }
}

// Is the value this text?
fn is_text(value: &Value, name: &Name) -> bool
    ensures { result ≡ is_name (Some name.now) value.now }
{
    match value {
        Value::Int(_) => false,
        Value::Text(text) => text.cmp(name) == Ordering::Equal,
    }
}

// Has one of these rows a value of an attribute?
fn has_row(rows: &[Row], members: &[RowId], attr: usize, value: &Value) -> bool
    ensures { result ≡ is_some (find (has_value rows.now (record { 0 = attr }) value.now) members.now) }
{
    match first_with(rows, members, attr, value) {
        Some(_) => true,
        None => false,
    }
}

// The first of these rows that has a value of an attribute.
fn first_with(rows: &[Row], members: &[RowId], attr: usize, value: &Value) -> Option<RowId>
    ensures { result ≡ find (has_value rows.now (record { 0 = attr }) value.now) members.now }
{
    members
        .iter()
        .copied()
        .find(|row| is_value(rows, attr, value, *row))
}

// Has a row this value of an attribute?
fn is_value(rows: &[Row], attr: usize, value: &Value, row: RowId) -> bool
    ensures { result ≡ has_value rows.now (record { 0 = attr }) value.now row }
{
    match value_at(rows, row, attr) {
        Some(own) => own.test(Cmp::Eq, value),
        None => false,
    }
}

// The value of an attribute of a row, if it is there.
fn value_at(rows: &[Row], row: RowId, attr: usize) -> Option<&Value>
    ensures { option_map (λ v. v.now) result ≡ field_value rows.now (Some row) attr }
{
    match rows.get(row.0 as usize) {
        Some(row) => row.values.as_slice().get(attr),
        None => None,
    }
}

// The name of an entity as the one value, if it is there.
fn name_of<'a>(alloc: Global, names: &'a [Value], ent: EntId) -> Result<Vec<&'a Value>, NoMemory>
    ensures { IfOk result (λ list. IsOnly (slice_get names.now ent.0) (map (λ v. v.now) list.items)) }
{
    let mut list = Vec::new(alloc);
    if let Some(name) = names.get(ent.0 as usize) {
        list.push(name)?;
    }
    Ok(list)
}

// The values that rows have of an attribute.
fn values_of<'a>(
    alloc: Global,
    rows: &'a [Row],
    members: &[RowId],
    attr: usize,
) -> Result<Vec<&'a Value>, NoMemory>
    ensures { IfOk result (λ list. AreOfRows rows.now members.now attr (map (λ v. v.now) list.items)) }
{
    let mut list = Vec::new(alloc);
    for row in members {
        if let Some(value) = value_at(rows, *row, attr) {
            list.push(value)?;
        }
    }
    Ok(list)
}

// Values, each once.
fn distinct<'a>(alloc: Global, values: Vec<&'a Value>) -> Result<Vec<&'a Value>, NoMemory>
    ensures { IfOk result (λ once. HaveSame (map (λ v. v.now) values.entry.items) (map (λ v. v.now) once.items)) }
{
    let mut sorted = values;
    sorted.sort_unstable();
    Ok(without_repeats(alloc, &sorted)?)
}

// Values, of those that are the same and stand beside each other the first alone.
fn without_repeats<'a>(alloc: Global, values: &[&'a Value]) -> Result<Vec<&'a Value>, NoMemory>
    ensures { IfOk result (λ once. HaveSame (map (λ v. v.now) values.now) (map (λ v. v.now) once.items)) }
{
    let mut once = Vec::new(alloc);
    for value in values {
        if !is_last(&once, value) {
            once.push(*value)?;
        }
    }
    Ok(once)
}

// Is a value the last one?
fn is_last(values: &[&Value], value: &Value) -> bool
    ensures { result ≡ true → Contains (map (λ v. v.now) values.now) value.now }
{
    match values.last() {
        Some(last) => last.test(Cmp::Eq, value),
        None => false,
    }
}
