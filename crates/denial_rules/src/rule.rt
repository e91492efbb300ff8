use currency_base::{AttrId, Cmp, ItemList, Name, RelId, Value};

/// What is compared: a row's value of an attribute, the row being that of a variable, or a constant.
#[derive(Drop)]
pub enum Operand {
    Field { var: u32, attr: AttrId },
    Constant(Value),
}

/// That the row of one variable is older than that of another, in an attribute.
#[derive(Clone, Copy, PartialEq, Eq)]
pub struct OrderAtom {
    pub earlier: u32,
    pub later: u32,
    pub attr: AttrId,
}

/// A condition of a rule.
#[derive(Drop)]
pub enum Predicate {
    Order(OrderAtom),
    Compare {
        left: Operand,
        cmp: Cmp,
        right: Operand,
    },
}

/// The conditions of a rule, in the order of the text.
pub type PredicateList = ItemList<Predicate>;

/// What a rule concludes.
#[derive(Clone, Copy, PartialEq, Eq)]
pub enum Conclusion {
    /// What never holds: the conditions do not all hold.
    Never,
    Order(OrderAtom),
}

/// A denial constraint on a relation: for all rows of one entity that are taken for its variables, not
/// necessarily different rows, the conclusion holds where all conditions do. Variables count from 0 and
/// are below `vars`.
#[derive(Drop)]
pub struct Rule {
    pub name: Name,
    pub relation: RelId,
    pub vars: u32,
    pub predicates: PredicateList,
    pub conclusion: Conclusion,
}

/// Rules, in the order of declaration.
pub type RuleList = ItemList<Rule>;
