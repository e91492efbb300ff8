ghost use Rattle.std.specs.Prelude.{◌≡◌, map};
ghost use Rattle.spec_model.specs.Facts.{IsRelation};

use currency_base::{AttrId, ItemList, RelId};
use name_index::NameIndex;
use spec_model::Relation;
use std::marker::Model;

/// Attributes of a relation, by their ids.
pub type AttrIdList = ItemList<AttrId>;

/// One side of a copy: a relation of a specification with its id, and the attributes that are named of
/// it. The names of its rows are at hand.
#[derive(Drop)]
pub struct CopySide<'a> {
    id: RelId,
    relation: &'a Relation,
    rows: &'a NameIndex,
    attrs: AttrIdList,
}

impl<'a> Model for CopySide<'a> {
    ghost use Rattle.copy_bind.specs.Sides.{Side, IsNamed};

    ghost Value = { Side };

    ghost view = { λ s. record { id = s.id; relation = s.relation.now; attrs = s.attrs } };

    ghost invariant = { λ s. IsNamed s.relation.now s.rows.now };
}

impl<'a> CopySide<'a> {
    ghost use Rattle.copy_bind.specs.Sides.{IsNamed};

    /// The side with these parts.
    pub(crate) fn new(
        id: RelId,
        relation: &'a Relation,
        rows: &'a NameIndex,
        attrs: AttrIdList,
    ) -> CopySide<'a>
        requires { IsNamed relation.now rows.now }
        ensures { result ≡ record { id = id; relation = relation.now; attrs = attrs } }
    {
        CopySide {
            id,
            relation,
            rows,
            attrs,
        }
    }
}

impl CopySide<'_> {
    /// The id of the relation.
    pub fn id(&self) -> RelId
        ensures { result ≡ self.now.id }
    {
        self.id
    }

    /// The relation.
    pub fn relation(&self) -> &Relation
        ensures value { result.now ≡ self.now.relation }
        ensures facts { IsRelation self.now.relation }
    {
        self.relation
    }

    /// The names of the relation's rows.
    pub fn rows(&self) -> &NameIndex
        ensures { result.now ≡ map (λ row. row.name) self.now.relation.rows }
    {
        self.rows
    }

    /// The attributes, in the order of the text.
    pub fn attrs(&self) -> &[AttrId]
        ensures { result.now ≡ self.now.attrs }
    {
        self.attrs.as_slice()
    }
}
