use text_grammar::{Named, NamedList, NamedPairList};

/// A copy: its name, the target relation and its attributes, the source relation and its attributes, in
/// the order of the text, and which rows are copied.
#[derive(Drop)]
pub struct CopyTree {
    pub name: Named,
    pub target: Named,
    pub target_attrs: NamedList,
    pub source: Named,
    pub source_attrs: NamedList,
    pub mappings: Mappings,
}

/// Which rows are copied from which: pairs of the target row's name and then the source row's, or the
/// document that lists them.
#[derive(Drop)]
pub enum Mappings {
    Inline(NamedPairList),
    Table(Named),
}
