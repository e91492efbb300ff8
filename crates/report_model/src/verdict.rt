ghost use Rattle.std.specs.Prelude.{◌≡◌};
ghost use Rattle.report_model.specs.Verdicts.{is_decided, kind_of, kind_text};

use currency_base::{AttrId, EntId, ItemList, RelId, Tuple, TupleList};
use spec_model::Asked;

/// The current tuple of an entity: one value per attribute of the relation, in the order of the attributes.
#[derive(Drop)]
pub struct Current {
    pub rel: RelId,
    pub ent: EntId,
    pub values: Tuple,
}

/// Current tuples, in the order of the text.
pub type CurrentList = ItemList<Current>;

/// What a report claims.
#[derive(Drop)]
pub enum Verdict {
    /// The specification has no consistent completion.
    Inconsistent,
    /// The specification has a consistent completion.
    Consistent,
    /// Each asked pair holds in every consistent completion.
    Certain,
    /// This asked pair fails in a consistent completion.
    NotCertain(Asked),
    /// These are the current tuples of the asked relations in every consistent completion.
    Same(CurrentList),
    /// Two consistent completions differ in the current value of an attribute of an entity.
    NotSame {
        rel: RelId,
        attr: AttrId,
        ent: EntId,
    },
    /// These are the certain answers, ascending.
    Answers(TupleList),
    /// Nothing is claimed: the search was cut off after this many new clauses.
    Undecided(u64),
}

/// The kind of a verdict.
#[derive(Clone, Copy, PartialEq, Eq)]
pub enum VerdictKind {
    Inconsistent,
    Consistent,
    Certain,
    NotCertain,
    Same,
    NotSame,
    Answers,
    Undecided,
}

impl Verdict {
    /// The kind of the verdict.
    pub fn kind(&self) -> VerdictKind
        ensures { result ≡ kind_of self.now }
    {
        match self {
            Verdict::Inconsistent => VerdictKind::Inconsistent,
            Verdict::Consistent => VerdictKind::Consistent,
            Verdict::Certain => VerdictKind::Certain,
            Verdict::NotCertain(_) => VerdictKind::NotCertain,
            Verdict::Same(_) => VerdictKind::Same,
            Verdict::NotSame { .. } => VerdictKind::NotSame,
            Verdict::Answers(_) => VerdictKind::Answers,
            Verdict::Undecided(_) => VerdictKind::Undecided,
        }
    }
}

impl VerdictKind {
    /// The words of the kind, as reports and the program write them.
    pub fn text(&self) -> &'static str
        ensures { result.now ≡ kind_text self.now }
    {
        match self {
            VerdictKind::Inconsistent => "inconsistent",
            VerdictKind::Consistent => "consistent",
            VerdictKind::Certain => "certain",
            VerdictKind::NotCertain => "not certain",
            VerdictKind::Same => "same",
            VerdictKind::NotSame => "not same",
            VerdictKind::Answers => "answers",
            VerdictKind::Undecided => "undecided",
        }
    }

    /// Is something claimed? `undecided` is neither right nor wrong.
    pub fn is_decided(&self) -> bool
        ensures { result ≡ is_decided self.now }
    {
        !matches!(self, VerdictKind::Undecided)
    }
}
