use spec_syntax::AttrTreeList;
use std::marker::Model;
use text_grammar::Named;

/// The parts of a `relation` statement, in the order of the text.
#[derive(Drop)]
pub struct Declaration<'a> {
    pub name: &'a Named,
    pub document: &'a Named,
    pub row: &'a Option<Named>,
    pub entity: &'a Named,
    pub attrs: &'a AttrTreeList,
}

impl<'a> Model for Declaration<'a> {
    ghost use Rattle.relation_bind.specs.Declarations.{Declared};

    ghost Value = { Declared };

    ghost view = { λ d. record {
      name = d.name.now;
      document = d.document.now;
      row = d.row.now;
      entity = d.entity.now;
      attrs = d.attrs.now;
    } };
}
