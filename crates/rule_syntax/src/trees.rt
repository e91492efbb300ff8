use currency_base::{Cmp, ItemList};
use text_grammar::{Const, Named, NamedList};

/// A denial constraint: its name, the relation that it is on, its variables, its predicates and its
/// conclusion, in the order of the text.
#[derive(Drop)]
pub struct RuleTree {
    pub name: Named,
    pub relation: Named,
    pub vars: NamedList,
    pub predicates: PredicateTreeList,
    pub conclusion: ConclusionTree,
}

/// A condition of a rule.
#[derive(Drop)]
pub enum PredicateTree {
    Order(OrderAtomTree),
    Compare {
        left: TermTree,
        cmp: Cmp,
        right: TermTree,
    },
}

/// Conditions, in the order of the text.
pub type PredicateTreeList = ItemList<PredicateTree>;

/// That the row of one variable is older than that of another, in an attribute.
#[derive(Drop)]
pub struct OrderAtomTree {
    pub earlier: Named,
    pub later: Named,
    pub attr: Named,
}

/// What is compared: an attribute of the row of a variable, or a constant.
#[derive(Drop)]
pub enum TermTree {
    Field { var: Named, attr: Named },
    Constant(Const),
}

/// What a rule concludes.
#[derive(Drop)]
pub enum ConclusionTree {
    /// `false`, which never holds.
    Never,
    Order(OrderAtomTree),
}
