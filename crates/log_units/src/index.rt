ghost use Rattle.std.specs.Prelude.{◌≡◌, ◌+◌, Contains, OnOk, Some, [], slice_get};
ghost use Rattle.currency_base.specs.Literals.{var_of};
ghost use Rattle.refutation_log.specs.Steps.{clauses_of};
ghost use Rattle.refutation_log.specs.declared.log.Log.{Log};
ghost use Rattle.log_checker.specs.Shown.{IsShownBy};
ghost use Rattle.log_units.specs.Said.{Adds, has_row, pair_of, row_of, tuple_of};
ghost use Rattle.log_units.specs.Noted.{AreNoted};

use crate::answers::SaidAnswers;
use crate::pairs::SaidPairs;
use crate::rows::SaidRows;
use crate::said::{pair_of, row_of, tuple_of};
use currency_base::{Lit, NoMemory, Tuple};
use log_axioms::Signed;
use log_checker::Checked;
use refutation_log::Statement;
use spec_model::Relation;
use std::alloc::Global;

/// What units say: pairs, rows whose values are the current ones, and answers.
#[derive(Drop)]
pub(crate) struct Index<'a> {
    pub pairs: SaidPairs,
    pub rows: SaidRows,
    pub answers: SaidAnswers<'a>,
}

impl<'a> Index<'a> {
    /// Nothing is said yet.
    pub(crate) fn new(alloc: Global) -> Index<'a>
        ensures pairs { result.pairs ≡ [] }
        ensures rows { result.rows ≡ [] }
        ensures answers { result.answers ≡ [] }
    {
        Index {
            pairs: SaidPairs::new(alloc),
            rows: SaidRows::new(alloc),
            answers: SaidAnswers::new(alloc),
        }
    }

    /// Notes what a literal says, if its unit is there. The statement is that of its variable, and the tuples are those
    /// that statements name.
    pub(crate) fn note_unit(
        &mut self,
        relations: &[Relation],
        tuples: &'a [Tuple],
        statement: Statement,
        lit: Lit,
        checked: &Checked,
    ) -> Result<(), NoMemory>
        ensures { OnOk result ((log : Log) → log.answers ≡ tuples.now → IsShownBy (clauses_of log.steps) checked.now
            → slice_get log.statements (var_of lit) ≡ Some statement
            → AreNoted relations.now log lit.0 self.old → AreNoted relations.now log (lit.0 + 1) self.new) }
    {
        if !checked.has_unit(lit) {
            return Ok(());
        }
        let negative = lit.negative();
        self.note(
            relations,
            tuples,
            Signed {
                statement,
                negative,
            },
        )
    }

    // Notes what is said.
    fn note(
        &mut self,
        relations: &[Relation],
        tuples: &'a [Tuple],
        said: Signed,
    ) -> Result<(), NoMemory>
        ensures pairs { OnOk result (Adds (Contains self.old.pairs) (Contains self.new.pairs) (pair_of said)) }
        ensures rows { OnOk result (Adds (has_row self.old.rows) (has_row self.new.rows) (row_of relations.now said)) }
        ensures answers { OnOk result (Adds (Contains self.old.answers) (Contains self.new.answers) (tuple_of tuples.now said)) }
    {
        self.pairs.note(pair_of(said))?;
        self.rows.note(row_of(relations, said))?;
        self.answers.note(tuple_of(tuples, said))
    }
}
