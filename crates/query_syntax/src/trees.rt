use currency_base::{Cmp, ItemList};
use text_grammar::{Const, Named, NamedList};

/// A query: the variables of its answers and its disjuncts, in the order of the text.
#[derive(Drop)]
pub struct QueryTree {
    pub head: NamedList,
    pub disjuncts: DisjunctTreeList,
}

/// A conjunction, which an atom begins: that atom and the parts after it, in the order of the text.
#[derive(Drop)]
pub struct DisjunctTree {
    pub first: AtomTree,
    pub parts: PartTreeList,
}

/// Disjuncts, in the order of the text.
pub type DisjunctTreeList = ItemList<DisjunctTree>;

/// What stands after an `and`.
#[derive(Drop)]
pub enum PartTree {
    Atom(AtomTree),
    Test(TestTree),
}

/// Parts of a conjunction, in the order of the text.
pub type PartTreeList = ItemList<PartTree>;

/// That a relation holds of what stands in its places.
#[derive(Drop)]
pub struct AtomTree {
    pub relation: Named,
    pub places: PlaceTreeList,
}

/// What stands in a place of an atom.
#[derive(Drop)]
pub enum PlaceTree {
    Var(Named),
    /// `_`, for any value, with the line of its token.
    Any { line: u32 },
    Constant(Const),
}

/// Places of an atom, in the order of the text.
pub type PlaceTreeList = ItemList<PlaceTree>;

/// That two terms compare so.
#[derive(Drop)]
pub struct TestTree {
    pub left: TestTermTree,
    pub cmp: Cmp,
    pub right: TestTermTree,
}

/// What is compared: a variable or a constant.
#[derive(Drop)]
pub enum TestTermTree {
    Var(Named),
    Constant(Const),
}
