use copy_syntax::CopyTree;
use currency_base::{ItemList, ValueKind};
use rule_syntax::RuleTree;
use text_grammar::{Named, NamedPairList};

/// A specification: its statements, in the order of the text.
#[derive(Drop)]
pub struct SpecTree {
    pub statements: StatementTreeList,
}

/// A statement of a specification.
#[derive(Drop)]
pub enum StatementTree {
    /// A relation, the document of its rows, the columns of the rows' names, where there is one, and of
    /// the entities' names, and its attributes in order.
    Relation {
        name: Named,
        document: Named,
        row: Option<Named>,
        entity: Named,
        attrs: AttrTreeList,
    },
    /// Given pairs of rows.
    Order(OrderingTree),
    /// A relation, and the document of its given pairs.
    Orders {
        relation: Named,
        document: Named,
    },
    /// A denial constraint.
    Rule(RuleTree),
    /// Rows of one relation that are copied from rows of another.
    Copy(CopyTree),
}

/// Statements, in the order of the text.
pub type StatementTreeList = ItemList<StatementTree>;

/// An attribute of a relation, and what kind of values it holds.
#[derive(Drop)]
pub struct AttrTree {
    pub name: Named,
    pub kind: ValueKind,
}

/// Attributes, in the order of the text.
pub type AttrTreeList = ItemList<AttrTree>;

/// Pairs of rows of one attribute of a relation, the earlier row first.
#[derive(Drop)]
pub struct OrderingTree {
    pub relation: Named,
    pub attr: Named,
    pub pairs: NamedPairList,
}
