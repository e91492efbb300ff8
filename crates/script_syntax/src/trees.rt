use currency_base::ItemList;
use question_syntax::QuestionTree;
use rule_syntax::RuleTree;
use text_grammar::{Named, NamedPair};

/// An entry of a script, and the line of its first word.
#[derive(Drop)]
pub struct Entry {
    pub line: u32,
    pub tree: EntryTree,
}

/// Entries, in the order of the text.
pub type EntryList = ItemList<Entry>;

/// What an entry says: an edit of the specification, or a question about it. Where `add` is false, an edit
/// withdraws.
#[derive(Drop)]
pub enum EntryTree {
    /// A given pair of rows of an attribute of a relation, the earlier row first.
    Order {
        add: bool,
        relation: Named,
        attr: Named,
        pair: NamedPair,
    },
    /// A denial constraint that is added.
    AddRule(RuleTree),
    /// The name of a denial constraint that is withdrawn.
    WithdrawRule(Named),
    /// A copied row of the copy of this name: the target row and then the source row.
    Copy {
        add: bool,
        name: Named,
        mapping: NamedPair,
    },
    /// A question.
    Ask(QuestionTree),
}
