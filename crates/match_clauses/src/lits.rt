ghost use Rattle.std.specs.Prelude.{◌≡◌, ◌<◌, IfOk, List, Some, slice_get};
ghost use Rattle.currency_base.specs.declared.value.Value.{Value};
ghost use Rattle.order_literals.specs.Numbers.{numbers_of};
ghost use Rattle.order_literals.specs.Statements.{statements_of};
ghost use Rattle.spec_model.specs.Completion.{IsCompletion};
ghost use Rattle.match_clauses.specs.Clauses.{AreMatchLits, SaysAnswer};
ghost use Rattle.match_clauses.specs.Matched.{IsMatchIn, IsOfWanted};

use crate::claims::{put, put_atoms};
use crate::source::Source;
use currency_base::{Lit, LitList, NoMemory, laws_of_tuple_order};
use order_literals::{Numbering, Wanted};
use query_model::{Match, Query};
use refutation_log::Statement;
use spec_model::{Completion, Specification};
use std::alloc::Global;

/// The literals of the axiom of a match over the current instance of a completion, whose tuple stands at a place of the
/// answers: that the tuple is an answer, and for each place of the match's atoms at which a value is asked for, that the
/// current value of the atom's entity is not. None stands twice.
pub fn match_lits(
    alloc: Global,
    spec: &Specification,
    numbering: &Numbering,
    wanted: &Wanted,
    query: &Query,
    completion: &Completion,
    m: &Match,
    answer: u32,
) -> Result<LitList, NoMemory>
    requires numbers { numbering.now ≡ numbers_of spec.now.relations wanted.now }
    requires completion { IsCompletion spec.now.relations completion.now }
    requires answer { answer < wanted.now.answers }
    requires wanted { IsOfWanted wanted.now.currents query.now m.now }
    requires is_match { (tuple : List Value) × IsMatchIn spec.now.relations completion.now query.now tuple m.now }
    ensures { IfOk result (AreMatchLits spec.now wanted.now query.now completion.now m.now answer) }
{
    let source = Source {
        spec,
        numbering,
        wanted,
        completion,
    };
    laws_of_tuple_order();
    let _relations = spec.relations();
    let atoms = query.disjuncts.get(m.disjunct as usize).atoms.as_slice();
    let mut lits = LitList::new(alloc);
    match put(&mut lits, answer_lit(numbering, answer)) {
        Ok(()) => {}
        Err(error) => return Err(error),
    }
    match put_atoms(source, &mut lits, atoms, m.entities.as_slice()) {
        Ok(()) => Ok(lits),
        Err(error) => Err(error),
    }
}

/// The literal that says that the tuple at a place of the answers is one.
pub fn answer_lit(numbering: &Numbering, answer: u32) -> Lit
    requires { answer < numbering.now.answers }
    ensures { SaysAnswer (statements_of numbering.now) answer result }
{
    match numbering.lit_of(Statement::Answer { tuple: answer }) {
        Some(lit) => lit,
        None => unreachable!(),
    }
}
