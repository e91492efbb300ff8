//! Specifications and questions whose verdict does not hang on who steers the search.

use crate::runs::{Case, EIGHT, HISTORY};

/// A specification, a question, a budget, and what they end with.
#[derive(Clone, Copy)]
pub(crate) struct Row<'a> {
    pub case: Case<'a>,
    pub question: &'a str,
    pub budget: &'a str,
    pub status: u8,
    pub verdict: &'a str,
    pub kind: &'a str,
}

/// Two rows of one entity, of which nothing is known.
const TWO: Case<'static> = Case {
    spec: "relation R from \"n.csv\" row id entity eid (a: int);\n",
    tables: &[("n.csv", b"id,eid,a\nr1,x,1\nr2,x,2\n")],
    verdict: "consistent",
};

/// Pairs, current tuples and answers, and clauses that no order meets.
pub(crate) const ROWS: [Row<'static>; 6] = [
    Row {
        case: HISTORY,
        question: "certain Emp.salary: s1 < s3 and Emp.last: s1 < s2 and Emp.address: s2 < s3;\n",
        budget: "100000",
        status: 0,
        verdict: "certain;\n",
        kind: "certain",
    },
    Row {
        case: HISTORY,
        question: "certain Emp.salary: s1 < s2;\n",
        budget: "100000",
        status: 0,
        verdict: "not certain Emp.salary: s1 < s2;\n",
        kind: "not certain",
    },
    Row {
        case: HISTORY,
        question: "same Emp;\n",
        budget: "100000",
        status: 0,
        verdict: "same;\ncurrent Emp mary (\"married\", \"Dupont\", 80, \"6 Main St\");\n",
        kind: "same",
    },
    Row {
        case: TWO,
        question: "answers () where R(e, 1) or R(e, 2);\n",
        budget: "100000",
        status: 0,
        verdict: "answers;\nanswer ();\n",
        kind: "answers",
    },
    Row {
        case: EIGHT,
        question: "consistent;\n",
        budget: "1",
        status: 3,
        verdict: "undecided 1;\n",
        kind: "undecided",
    },
    Row {
        case: EIGHT,
        question: "consistent;\n",
        budget: "27",
        status: 0,
        verdict: "inconsistent;\n",
        kind: "inconsistent",
    },
];
