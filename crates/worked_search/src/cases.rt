//! Small cases: clauses over few variables, and a goal.

use currency_base::Lit;
use made_clauses::Source;

/// At most three literals; their variables ascend.
#[derive(Clone, Copy, Debug)]
pub(crate) struct Clause {
    lits: [Lit; 3],
    len: usize,
}

/// Clauses over so many variables.
#[derive(Clone, Copy, Debug)]
pub(crate) struct Case {
    pub vars: u32,
    pub clauses: [Option<Clause>; 3],
    pub goal: Option<Lit>,
}

impl Clause {
    /// The literals.
    pub(crate) fn lits(&self) -> &[Lit] {
        &self.lits[..self.len.min(3)]
    }
}

/// A case that is made from a source of numbers, over at most five variables.
pub(crate) fn make_case(source: &mut Source) -> Case {
    let vars = source.below(5) + 1;
    let clauses = [
        some_clause(source, vars),
        some_clause(source, vars),
        some_clause(source, vars),
    ];
    let goal = if source.below(2) == 1 {
        Some(source.lit(vars))
    } else {
        None
    };
    Case {
        vars,
        clauses,
        goal,
    }
}

// Three times in four a clause.
fn some_clause(source: &mut Source, vars: u32) -> Option<Clause> {
    if source.below(4) == 0 {
        return None;
    }
    let mut clause = Clause {
        lits: [Lit::new(0, false); 3],
        len: 0,
    };
    for var in 0..vars.min(5) {
        let negative = source.below(2) == 1;
        if clause.len < 3 && source.below(2) == 1 {
            clause.lits[clause.len] = Lit::new(var, negative);
            clause.len += 1;
        }
    }
    Some(clause)
}
