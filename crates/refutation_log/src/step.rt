ghost use Rattle.std.specs.Prelude.{◌≡◌};
ghost use Rattle.refutation_log.specs.Steps.{label_of, step_of};

use currency_base::{
    AttrId, CopyId, EntId, EntList, ItemList, Lit, LitList, RelId, RowId, RowList, RuleId, Tuple,
    Value,
};

/// Steps that a step follows from, by their places in the log, in the order in which they are used.
pub type HintList = ItemList<u32>;

/// Which axiom a clause is. Ids and places count from 0, and need not be there: the checker judges them.
#[derive(Drop)]
pub enum Label {
    /// The pair is given.
    Given {
        rel: RelId,
        attr: AttrId,
        earlier: RowId,
        later: RowId,
    },
    /// If the first row stands before the second and this before the third, the first stands before the
    /// third.
    Transitive {
        rel: RelId,
        attr: AttrId,
        first: RowId,
        second: RowId,
        third: RowId,
    },
    /// The instance of a rule for these rows, one per variable.
    Rule {
        rule: RuleId,
        rows: RowList,
    },
    /// At a place of a copy function: if the first row's source stands before the second row's source, the
    /// first row stands before the second.
    Copy {
        copy: CopyId,
        place: u32,
        first: RowId,
        second: RowId,
    },
    /// If a row stands last, another stands before it.
    Above {
        rel: RelId,
        attr: AttrId,
        row: RowId,
        other: RowId,
    },
    /// If all other rows of its entity stand before a row, it stands last.
    Top {
        rel: RelId,
        attr: AttrId,
        row: RowId,
    },
    /// If a row stands last, its value is the current one.
    Last {
        rel: RelId,
        attr: AttrId,
        row: RowId,
    },
    /// If a row's value is the current one, one of the rows of its entity with that value stands last.
    Value {
        rel: RelId,
        attr: AttrId,
        row: RowId,
    },
    /// If these values are current, the tuple that a disjunct's head makes of them is an answer: one entity
    /// per atom, and one value per variable of the disjunct.
    Match {
        disjunct: u32,
        entities: EntList,
        values: Tuple,
    },
}

/// A step of a log. Its literals are those of its clause; a clause is a set, so they may stand in any order.
#[derive(Drop)]
pub enum Step {
    /// An axiom.
    Axiom {
        label: Label,
        lits: LitList,
    },
    /// An axiom that was brought in by the search; it is counted.
    OnDemand {
        label: Label,
        lits: LitList,
    },
    /// A clause that follows from earlier steps with these hints.
    Learn {
        lits: LitList,
        hints: HintList,
        counted: bool,
    },
}

/// A label whose lists are lent.
#[derive(Clone, Copy)]
pub enum LabelRef<'a> {
    Given {
        rel: RelId,
        attr: AttrId,
        earlier: RowId,
        later: RowId,
    },
    Transitive {
        rel: RelId,
        attr: AttrId,
        first: RowId,
        second: RowId,
        third: RowId,
    },
    Rule {
        rule: RuleId,
        rows: &'a [RowId],
    },
    Copy {
        copy: CopyId,
        place: u32,
        first: RowId,
        second: RowId,
    },
    Above {
        rel: RelId,
        attr: AttrId,
        row: RowId,
        other: RowId,
    },
    Top {
        rel: RelId,
        attr: AttrId,
        row: RowId,
    },
    Last {
        rel: RelId,
        attr: AttrId,
        row: RowId,
    },
    Value {
        rel: RelId,
        attr: AttrId,
        row: RowId,
    },
    Match {
        disjunct: u32,
        entities: &'a [EntId],
        values: &'a [Value],
    },
}

/// A step whose lists are lent.
#[derive(Clone, Copy)]
pub enum StepRef<'a> {
    Axiom {
        label: LabelRef<'a>,
        lits: &'a [Lit],
    },
    OnDemand {
        label: LabelRef<'a>,
        lits: &'a [Lit],
    },
    Learn {
        lits: &'a [Lit],
        hints: &'a [u32],
        counted: bool,
    },
}

impl Label {
    /// The label, its lists lent.
    pub fn as_ref(&self) -> LabelRef<'_>
        ensures { label_of result ≡ self.now }
    {
        match self {
            Label::Given {
                rel,
                attr,
                earlier,
                later,
            } => LabelRef::Given {
                rel: *rel,
                attr: *attr,
                earlier: *earlier,
                later: *later,
            },
            Label::Transitive {
                rel,
                attr,
                first,
                second,
                third,
            } => LabelRef::Transitive {
                rel: *rel,
                attr: *attr,
                first: *first,
                second: *second,
                third: *third,
            },
            Label::Rule { rule, rows } => LabelRef::Rule {
                rule: *rule,
                rows: rows.as_slice(),
            },
            Label::Copy {
                copy,
                place,
                first,
                second,
            } => LabelRef::Copy {
                copy: *copy,
                place: *place,
                first: *first,
                second: *second,
            },
            Label::Above {
                rel,
                attr,
                row,
                other,
            } => LabelRef::Above {
                rel: *rel,
                attr: *attr,
                row: *row,
                other: *other,
            },
            Label::Top { rel, attr, row } => LabelRef::Top {
                rel: *rel,
                attr: *attr,
                row: *row,
            },
            Label::Last { rel, attr, row } => LabelRef::Last {
                rel: *rel,
                attr: *attr,
                row: *row,
            },
            Label::Value { rel, attr, row } => LabelRef::Value {
                rel: *rel,
                attr: *attr,
                row: *row,
            },
            Label::Match {
                disjunct,
                entities,
                values,
            } => LabelRef::Match {
                disjunct: *disjunct,
                entities: entities.as_slice(),
                values: values.as_slice(),
            },
        }
    }
}

impl Step {
    /// The step, its lists lent.
    pub fn as_ref(&self) -> StepRef<'_>
        ensures { step_of result ≡ self.now }
    {
        match self {
            Step::Axiom { label, lits } => StepRef::Axiom {
                label: label.as_ref(),
                lits: lits.as_slice(),
            },
            Step::OnDemand { label, lits } => StepRef::OnDemand {
                label: label.as_ref(),
                lits: lits.as_slice(),
            },
            Step::Learn {
                lits,
                hints,
                counted,
            } => StepRef::Learn {
                lits: lits.as_slice(),
                hints: hints.as_slice(),
                counted: *counted,
            },
        }
    }
}
