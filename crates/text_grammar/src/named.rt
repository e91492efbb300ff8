use currency_base::{ItemList, Name, Value};

/// A name in a text, with the line of its token.
#[derive(Drop)]
pub struct Named {
    pub name: Name,
    pub line: u32,
}

/// Names, in the order of the text.
pub type NamedList = ItemList<Named>;

/// Two names of one thing, in the order of the text.
#[derive(Drop)]
pub struct NamedPair {
    pub first: Named,
    pub second: Named,
}

/// Pairs of names, in the order of the text.
pub type NamedPairList = ItemList<NamedPair>;

/// A constant in a text, with the line of its token.
#[derive(Drop)]
pub struct Const {
    pub value: Value,
    pub line: u32,
}
