//! The records of a relation.

ghost use Rattle.std.specs.Prelude.{◌≡◌, ◌∷◌, ◌++◌, All, IfOk, OnOk, Some, length, option_map};
ghost use Rattle.denial_rules.specs.Instances.{field_value};
ghost use Rattle.golden_command.specs.Text.{field_bytes, fields_from, header_of, open_name, open_names};
ghost use Rattle.golden_command.specs.Text.{record_of, records_of};
ghost use Rattle.text_write.specs.Pieces.{text_of};
ghost use Rattle.text_write.specs.Spacing.{writes_all};

use currency_base::{ByteList, Name, NoMemory, Row, RowId, Value};
use golden_values::{Field, FieldList};
use record_text::{Record, RecordList, bytes_of, value_bytes};
use spec_model::{Attr, Relation};
use std::alloc::Global;
use text_write::TextWriter;

/// The header and the records of all entities.
pub(crate) fn records(
    alloc: Global,
    column: ByteList,
    relation: &Relation,
    table: &[FieldList],
) -> Result<RecordList, NoMemory>
    requires entities { length table.now ≡ length relation.now.entities }
    requires attrs { All (λ fields. length fields ≡ length relation.now.attrs) table.now }
    ensures { IfOk result (λ list. list ≡ header_of column relation.now
        ∷ records_of relation.now relation.now.entities table.now) }
{
    let mut list = RecordList::new(alloc);
    list.push(header(alloc, column, relation)?)?;
    for ent in 0..table.len() {
        let name = relation.entities.get(ent);
        list.push(record(alloc, relation, name, table[ent].as_slice())?)?;
    }
    Ok(list)
}

/// The header.
fn header(alloc: Global, column: ByteList, relation: &Relation) -> Result<Record, NoMemory>
    ensures { IfOk result (λ one. one ≡ header_of column relation.now) }
{
    let mut header = Record::new(alloc);
    header.push(column)?;
    for attr in relation.attrs.as_slice() {
        header.push(bytes_of(alloc, attr.name.bytes())?)?;
    }
    header.push(bytes_of(alloc, "open".as_bytes())?)?;
    Ok(header)
}

/// The record of an entity.
fn record(
    alloc: Global,
    relation: &Relation,
    entity: &Name,
    fields: &[Field],
) -> Result<Record, NoMemory>
    requires { length fields.now ≡ length relation.now.attrs }
    ensures { IfOk result (λ one. one ≡ record_of relation.now entity.now fields.now) }
{
    let mut record = Record::new(alloc);
    record.push(bytes_of(alloc, entity.bytes())?)?;
    put_fields(alloc, relation.rows.as_slice(), fields, &mut record)?;
    record.push(open_text(alloc, relation.attrs.as_slice(), fields)?)?;
    Ok(record)
}

/// Puts in the fields of an entity.
fn put_fields(
    alloc: Global,
    rows: &[Row],
    fields: &[Field],
    into: &mut Record,
) -> Result<(), NoMemory>
    ensures { OnOk result (into.new ≡ into.old ++ fields_from rows.now 0 fields.now) }
{
    for attr in 0..fields.len() {
        into.push(field_bytes(alloc, rows, attr, fields[attr])?)?;
    }
    Ok(())
}

/// A field.
fn field_bytes(alloc: Global, rows: &[Row], attr: usize, field: Field) -> Result<ByteList, NoMemory>
    ensures { IfOk result (λ bytes. bytes ≡ field_bytes rows.now attr field) }
{
    match field {
        Field::Value(row) => match value_at(rows, row, attr) {
            Some(value) => value_bytes(alloc, value),
            None => Ok(ByteList::new(alloc)),
        },
        Field::Open => Ok(ByteList::new(alloc)),
    }
}

/// The value of an attribute of a row, if it is there.
fn value_at(rows: &[Row], row: RowId, attr: usize) -> Option<&Value>
    ensures { option_map (λ v. v.now) result ≡ field_value rows.now (Some row) attr }
{
    match rows.get(row.0 as usize) {
        Some(row) => row.values.as_slice().get(attr),
        None => None,
    }
}

/// The names of the attributes of which two values are possible.
fn open_text(alloc: Global, attrs: &[Attr], fields: &[Field]) -> Result<ByteList, NoMemory>
    requires { length fields.now ≡ length attrs.now }
    ensures { IfOk result (λ text. text ≡ text_of (open_names attrs.now fields.now)) }
{
    let mut into = TextWriter::new(alloc);
    write_names(&mut into, attrs, fields)?;
    Ok(into.into_text())
}

/// Writes these names.
fn write_names(into: &mut TextWriter, attrs: &[Attr], fields: &[Field]) -> Result<(), NoMemory>
    requires { length fields.now ≡ length attrs.now }
    ensures { OnOk result (into.new ≡ writes_all into.old (open_names attrs.now fields.now)) }
{
    for attr in 0..attrs.len() {
        write_name(into, &attrs[attr].name, fields[attr])?;
    }
    Ok(())
}

/// Writes the name of an attribute, if two values of it are possible.
fn write_name(into: &mut TextWriter, attr: &Name, field: Field) -> Result<(), NoMemory>
    ensures { OnOk result (into.new ≡ writes_all into.old (open_name attr.now field)) }
{
    match field {
        Field::Value(_) => Ok(()),
        Field::Open => into.name(attr),
    }
}
