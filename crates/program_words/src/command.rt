/// What the program is asked to do. Documents are told by their names.
#[derive(Clone, Copy)]
pub enum Command<'a> {
    Ask(Ask<'a>),
    Verify(Verify<'a>),
    /// The forced pairs of the specification of this name.
    Forced(&'a str),
    /// `trial N`: the four questions about a generated specification of so many entities, 1 to 1000.
    Trial(u64),
    Explain(Explain<'a>),
    Conflicts(Conflicts<'a>),
    Golden(Golden<'a>),
    Possible(Possible<'a>),
    /// `ask --csv`: the certain answers of a query as a table.
    CertainTable(AnswerTable<'a>),
    /// `possible --csv`: the answers of a query that some consistent completion has as a table.
    PossibleTable(AnswerTable<'a>),
    Session(Session<'a>),
}

/// How much is told of a report that answers a question.
#[derive(Clone, Copy)]
pub enum AnswerForm {
    /// All of it.
    Whole,
    /// `--brief`: its log is left out, where it is decided.
    Brief,
    /// `--verdict`: the verdict alone, with its items.
    Verdict,
}

/// `ask SPEC QUESTION [--budget N] [--brief | --verdict] [--exit] [--guide K]`.
#[derive(Clone, Copy)]
pub struct Ask<'a> {
    pub spec: &'a str,
    pub question: &'a str,
    /// How many clauses may be learned: 1 to 10,000,000.
    pub budget: u64,
    pub form: AnswerForm,
    /// Does the status tell an answer of no?
    pub exit: bool,
    /// The one guide that is kept, 1 to 4; where there is none, all are.
    pub guide: Option<u64>,
}

/// `verify SPEC QUESTION REPORT`.
#[derive(Clone, Copy)]
pub struct Verify<'a> {
    pub spec: &'a str,
    pub question: &'a str,
    pub report: &'a str,
}

/// `explain SPEC QUESTION N [--budget B] [--guide K]`.
#[derive(Clone, Copy)]
pub struct Explain<'a> {
    pub spec: &'a str,
    pub question: &'a str,
    /// The number of the unit, from 1 on.
    pub unit: u32,
    /// How many clauses may be learned in each search: 1 to 10,000,000.
    pub budget: u64,
    /// The one guide that is kept, 1 to 4; where there is none, all are.
    pub guide: Option<u64>,
}

/// `conflicts SPEC [--budget B] [--guide K]`.
#[derive(Clone, Copy)]
pub struct Conflicts<'a> {
    pub spec: &'a str,
    /// How many clauses may be learned in each search: 1 to 10,000,000.
    pub budget: u64,
    /// The one guide that is kept, 1 to 4; where there is none, all are.
    pub guide: Option<u64>,
}

/// `golden SPEC RELATION [--budget B] [--guide K]`.
#[derive(Clone, Copy)]
pub struct Golden<'a> {
    pub spec: &'a str,
    /// The name of a relation.
    pub relation: &'a str,
    /// How many clauses may be learned in each search: 1 to 10,000,000.
    pub budget: u64,
    /// The one guide that is kept, 1 to 4; where there is none, all are.
    pub guide: Option<u64>,
}

/// `possible SPEC QUESTION [--budget N] [--brief] [--guide K]`.
#[derive(Clone, Copy)]
pub struct Possible<'a> {
    pub spec: &'a str,
    pub question: &'a str,
    /// How many clauses may be learned in each search: 1 to 10,000,000.
    pub budget: u64,
    /// Are the questions with their reports left out that show what is impossible?
    pub brief: bool,
    /// The one guide that is kept, 1 to 4; where there is none, all are.
    pub guide: Option<u64>,
}

/// `ask SPEC QUESTION --csv [--budget N] [--guide K]`, or the same of `possible`.
#[derive(Clone, Copy)]
pub struct AnswerTable<'a> {
    pub spec: &'a str,
    pub question: &'a str,
    /// How many clauses may be learned in each search: 1 to 10,000,000.
    pub budget: u64,
    /// The one guide that is kept, 1 to 4; where there is none, all are.
    pub guide: Option<u64>,
}

/// `session SPEC SCRIPT [--budget B] [--brief] [--guide K]`.
#[derive(Clone, Copy)]
pub struct Session<'a> {
    pub spec: &'a str,
    pub script: &'a str,
    /// How many clauses may be learned for each question: 1 to 10,000,000.
    pub budget: u64,
    /// Are the logs of decided reports left out?
    pub brief: bool,
    /// The one guide that is kept, 1 to 4; where there is none, all are.
    pub guide: Option<u64>,
}
