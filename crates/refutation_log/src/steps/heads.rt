ghost use Rattle.std.specs.Prelude.{◌≡◌, []};
ghost use Rattle.refutation_log.specs.Steps.{label_of, step_of};
ghost use Rattle.refutation_log.specs.Kept.{label_with, step_with, step_of_parts};

use crate::{LabelRef, StepRef};
use currency_base::{AttrId, CopyId, EntId, Lit, RelId, RowId, RuleId, Value};

/// A label without its lists.
#[derive(Clone, Copy)]
pub(crate) enum HeadLabel {
    Given {
        rel: RelId,
        attr: AttrId,
        earlier: RowId,
        later: RowId,
    },
    Transitive {
        rel: RelId,
        attr: AttrId,
        first: RowId,
        second: RowId,
        third: RowId,
    },
    Rule {
        rule: RuleId,
    },
    Copy {
        copy: CopyId,
        place: u32,
        first: RowId,
        second: RowId,
    },
    Above {
        rel: RelId,
        attr: AttrId,
        row: RowId,
        other: RowId,
    },
    Top {
        rel: RelId,
        attr: AttrId,
        row: RowId,
    },
    Last {
        rel: RelId,
        attr: AttrId,
        row: RowId,
    },
    Value {
        rel: RelId,
        attr: AttrId,
        row: RowId,
    },
    Match {
        disjunct: u32,
    },
}

/// A step without its lists.
#[derive(Clone, Copy)]
pub(crate) enum Head {
    Axiom(HeadLabel),
    OnDemand(HeadLabel),
    Learn { counted: bool },
}

/// A step taken apart: its head, and a list of each kind, empty where the step has none.
#[derive(Clone, Copy)]
pub(crate) struct Parts<'a> {
    pub(crate) head: Head,
    pub(crate) rows: &'a [RowId],
    pub(crate) entities: &'a [EntId],
    pub(crate) values: &'a [Value],
    pub(crate) lits: &'a [Lit],
    pub(crate) hints: &'a [u32],
}

// A label taken apart.
#[derive(Clone, Copy)]
struct LabelParts<'a> {
    head: HeadLabel,
    rows: &'a [RowId],
    entities: &'a [EntId],
    values: &'a [Value],
}

impl<'a> LabelParts<'a> {
    // The parts of a label that has no list.
    fn bare(head: HeadLabel) -> LabelParts<'a>
        ensures head { result.head ≡ head }
    {
        LabelParts {
            head,
            rows: &[],
            entities: &[],
            values: &[],
        }
    }

    // The parts of a label.
    fn of(label: LabelRef<'a>) -> LabelParts<'a>
        ensures { label_with result.head result.rows.now result.entities.now result.values.now ≡ label_of label.entry }
    {
        match label {
            LabelRef::Given {
                rel,
                attr,
                earlier,
                later,
            } => LabelParts::bare(HeadLabel::Given {
                rel,
                attr,
                earlier,
                later,
            }),
            LabelRef::Transitive {
                rel,
                attr,
                first,
                second,
                third,
            } => LabelParts::bare(HeadLabel::Transitive {
                rel,
                attr,
                first,
                second,
                third,
            }),
            LabelRef::Rule { rule, rows } => LabelParts {
                head: HeadLabel::Rule { rule },
                rows,
                entities: &[],
                values: &[],
            },
            LabelRef::Copy {
                copy,
                place,
                first,
                second,
            } => LabelParts::bare(HeadLabel::Copy {
                copy,
                place,
                first,
                second,
            }),
            LabelRef::Above {
                rel,
                attr,
                row,
                other,
            } => LabelParts::bare(HeadLabel::Above {
                rel,
                attr,
                row,
                other,
            }),
            LabelRef::Top { rel, attr, row } => LabelParts::bare(HeadLabel::Top { rel, attr, row }),
            LabelRef::Last { rel, attr, row } => LabelParts::bare(HeadLabel::Last {
                rel,
                attr,
                row,
            }),
            LabelRef::Value { rel, attr, row } => LabelParts::bare(HeadLabel::Value {
                rel,
                attr,
                row,
            }),
            LabelRef::Match {
                disjunct,
                entities,
                values,
            } => LabelParts {
                head: HeadLabel::Match { disjunct },
                rows: &[],
                entities,
                values,
            },
        }
    }

    // The parts of a step with this label.
    fn with(self, head: Head, lits: &'a [Lit]) -> Parts<'a>
        ensures { step_of_parts result ≡ step_with head self.entry.rows.now self.entry.entities.now
            self.entry.values.now lits.now [] }
    {
        Parts {
            head,
            rows: self.rows,
            entities: self.entities,
            values: self.values,
            lits,
            hints: &[],
        }
    }
}

impl<'a> Parts<'a> {
    /// The parts of a step.
    pub(crate) fn of(step: StepRef<'a>) -> Parts<'a>
        ensures { step_of_parts result ≡ step_of step.entry }
    {
        match step {
            StepRef::Axiom { label, lits } => {
                let label = LabelParts::of(label);
                label.with(Head::Axiom(label.head), lits)
            }
            StepRef::OnDemand { label, lits } => {
                let label = LabelParts::of(label);
                label.with(Head::OnDemand(label.head), lits)
            }
            StepRef::Learn {
                lits,
                hints,
                counted,
            } => Parts {
                head: Head::Learn { counted },
                rows: &[],
                entities: &[],
                values: &[],
                lits,
                hints,
            },
        }
    }

    /// The step whose parts these are.
    pub(crate) fn step(&self) -> StepRef<'a>
        ensures { step_of result ≡ step_of_parts self.now }
    {
        match self.head {
            Head::Axiom(label) => StepRef::Axiom {
                label: self.label(label),
                lits: self.lits,
            },
            Head::OnDemand(label) => StepRef::OnDemand {
                label: self.label(label),
                lits: self.lits,
            },
            Head::Learn { counted } => StepRef::Learn {
                lits: self.lits,
                hints: self.hints,
                counted,
            },
        }
    }

    // The label whose head this is.
    fn label(&self, head: HeadLabel) -> LabelRef<'a>
        ensures { label_of result ≡ label_with head self.now.rows.now self.now.entities.now self.now.values.now }
    {
        let Parts {
            rows,
            entities,
            values,
            ..
        } = *self;
        match head {
            HeadLabel::Given {
                rel,
                attr,
                earlier,
                later,
            } => LabelRef::Given {
                rel,
                attr,
                earlier,
                later,
            },
            HeadLabel::Transitive {
                rel,
                attr,
                first,
                second,
                third,
            } => LabelRef::Transitive {
                rel,
                attr,
                first,
                second,
                third,
            },
            HeadLabel::Rule { rule } => LabelRef::Rule { rule, rows },
            HeadLabel::Copy {
                copy,
                place,
                first,
                second,
            } => LabelRef::Copy {
                copy,
                place,
                first,
                second,
            },
            HeadLabel::Above {
                rel,
                attr,
                row,
                other,
            } => LabelRef::Above {
                rel,
                attr,
                row,
                other,
            },
            HeadLabel::Top { rel, attr, row } => LabelRef::Top { rel, attr, row },
            HeadLabel::Last { rel, attr, row } => LabelRef::Last { rel, attr, row },
            HeadLabel::Value { rel, attr, row } => LabelRef::Value { rel, attr, row },
            HeadLabel::Match { disjunct } => LabelRef::Match {
                disjunct,
                entities,
                values,
            },
        }
    }
}
