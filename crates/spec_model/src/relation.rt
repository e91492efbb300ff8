use currency_base::{ItemList, Name, NameList, Rows, ValueKind};
use partial_orders::Pairs;

/// An attribute of a relation: its name, and the kind of its values.
#[derive(Drop)]
pub struct Attr {
    pub name: Name,
    pub kind: ValueKind,
}

/// The attributes of a relation, in the order of declaration.
pub type AttrList = ItemList<Attr>;

/// A relation with its table: a name, attributes, rows, the names of its entities in the order of
/// their first rows, and the given pairs of its rows.
#[derive(Drop)]
pub struct Relation {
    pub name: Name,
    pub attrs: AttrList,
    pub rows: Rows,
    pub entities: NameList,
    pub given: Pairs,
}

/// Relations, in the order of declaration.
pub type RelationList = ItemList<Relation>;
