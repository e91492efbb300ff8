ghost use Rattle.std.specs.Prelude.{◌≡◌, All, IsUtf8, map};
ghost use Rattle.report_write.specs.Writable.{HasTextNames};

use currency_base::{Name, Row};
use spec_model::{Attr, Relation, Specification};

// A law: names are text.
fn names_are_text(names: &[Name])
    ensures { All IsUtf8 names.now }
{
    for place in 0..names.len() {
        let _ = names[place].bytes();
    }
}

// A law: names of attributes are text.
fn attributes_have_text(attrs: &[Attr])
    ensures { All IsUtf8 (map (λ a. a.name) attrs.now) }
{
    for place in 0..attrs.len() {
        let _ = attrs[place].name.bytes();
    }
}

// A law: names of rows are text.
fn rows_have_text(rows: &[Row])
    ensures { All IsUtf8 (map (λ row. row.name) rows.now) }
{
    for place in 0..rows.len() {
        let _ = rows[place].name.bytes();
    }
}

// A law: the names of a relation are text.
fn relation_has_text(relation: &Relation)
    ensures { HasTextNames relation.now }
{
    let _ = relation.name.bytes();
    attributes_have_text(relation.attrs.as_slice());
    names_are_text(relation.entities.as_slice());
    rows_have_text(relation.rows.as_slice());
}

// A law: the names of relations are text.
fn relations_have_text(relations: &[Relation])
    ensures { All HasTextNames relations.now }
{
    for place in 0..relations.len() {
        relation_has_text(&relations[place]);
    }
}

/// A law: the names of a specification are text, since each is a `Name`.
pub fn has_text_names(spec: &Specification)
    ensures { All HasTextNames spec.now.relations }
{
    relations_have_text(spec.relations());
}
