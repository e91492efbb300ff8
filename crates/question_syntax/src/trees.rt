use currency_base::ItemList;
use query_syntax::QueryTree;
use spec_syntax::OrderingTree;
use text_grammar::{Named, NamedList};

/// A question. A line is that of its first word.
#[derive(Drop)]
pub enum QuestionTree {
    /// Is the specification consistent?
    Consistent { line: u32 },
    /// Do these pairs hold in every consistent completion?
    Certain { line: u32, asked: AskedTreeList },
    /// Are the current tuples of these relations the same in every consistent completion?
    Same { line: u32, relations: NamedList },
    /// Which tuples are answers of this query in every consistent completion?
    Answers(QueryTree),
}

/// Pairs that are asked about.
#[derive(Drop)]
pub enum AskedTree {
    /// Pairs of one attribute of a relation.
    Ordering(OrderingTree),
    /// A relation, and the document of the pairs.
    Table { relation: Named, document: Named },
}

/// Asked parts, in the order of the text.
pub type AskedTreeList = ItemList<AskedTree>;
