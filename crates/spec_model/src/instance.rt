use currency_base::{ItemList, TupleList};

/// Tuples per relation, in the order of the relations.
pub type TupleTable = ItemList<TupleList>;

/// For each relation one tuple per entity, in the order of the entities: the entity's name as a text, and
/// then one value per attribute, in the order of the attributes.
#[derive(Drop)]
pub struct Instance {
    pub relations: TupleTable,
}
