use currency_base::{Cmp, EntList, ItemList, RelId, Tuple, Value};

/// What stands at a place of an atom.
#[derive(Drop)]
pub enum Term {
    /// The value of a variable of the disjunct.
    Var(u32),
    /// Any value.
    Any,
    /// This value.
    Constant(Value),
}

/// Terms, in the order of their places.
pub type TermList = ItemList<Term>;

/// That a relation has a tuple which these terms fit: the entity's name first, then one place per attribute.
#[derive(Drop)]
pub struct Atom {
    pub relation: RelId,
    pub terms: TermList,
}

/// Atoms, in the order of the text.
pub type AtomList = ItemList<Atom>;

/// A side of a comparison.
#[derive(Drop)]
pub enum TestTerm {
    /// The value of a variable of the disjunct.
    Var(u32),
    /// This value.
    Constant(Value),
}

/// A comparison.
#[derive(Drop)]
pub struct Test {
    pub left: TestTerm,
    pub cmp: Cmp,
    pub right: TestTerm,
}

/// Comparisons, in the order of the text.
pub type TestList = ItemList<Test>;

/// Variables, by their numbers.
pub type VarList = ItemList<u32>;

/// One way to be an answer: atoms and comparisons of so many variables, which are numbered from 0 in the order in which
/// they first stand in an atom, and the variables whose values are the answer.
#[derive(Drop)]
pub struct Disjunct {
    pub head: VarList,
    pub atoms: AtomList,
    pub tests: TestList,
    pub vars: u32,
}

/// Ways to be an answer, in the order of the text.
pub type DisjunctList = ItemList<Disjunct>;

/// A union of conjunctive queries with comparisons.
#[derive(Drop)]
pub struct Query {
    pub disjuncts: DisjunctList,
}

/// How a tuple is an answer: by which disjunct, by the tuple of which entity for each atom, and by which values of the
/// variables.
#[derive(Drop)]
pub struct Match {
    pub disjunct: u32,
    pub entities: EntList,
    pub values: Tuple,
}
