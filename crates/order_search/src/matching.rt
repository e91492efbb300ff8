ghost use Rattle.std.specs.Prelude.{◌≡◌, ◌+◌, ◌<◌, false, true, IfOk, OnOk, OnErr};
ghost use Rattle.refutation_log.specs.Counted.{counted_steps};
ghost use Rattle.order_search.specs.Kept.{HasAdded, IsHeld, IsMatchFor, search_of, vars_of};
ghost use Rattle.order_search.specs.Parts.{AreParts};
ghost use Rattle.order_search.specs.Searches.{HasTaken, IsAnswerCounter, IsMatchOf};
ghost use Rattle.order_search.specs.Tied.{HasMatchedIn, IsTied};

use crate::parting::Parting;
use crate::progress::{Progress, root_value};
use crate::subject::Subject;
use crate::tying::{home_of, tie};
use currency_base::{Assignment, Lit, NoMemory, laws_of_tuple_order};
use order_literals::one_literal;
use query_model::Match;
use refutation_log::LabelRef;
use solver_guides::Guides;
use spec_model::Completion;
use std::alloc::Global;
use variable_parts::{VariableParts, variables_have_parts};
use watch_solver::{Budget, Solver};

/// Puts the axiom of a match after the steps. No unit is taken.
pub(crate) fn add_match(
    subject: &Subject<'_>,
    progress: &mut Progress,
    parting: &mut Parting,
    alloc: Global,
    completion: &Completion,
    m: &Match,
    answer: u32,
    guides: &mut Guides,
) -> Result<(), NoMemory>
    requires held { IsHeld subject.now progress.old.solver progress.old.brought.items }
    requires tied { IsTied subject.now parting.old progress.old.solver.steps }
    requires is_match { IsMatchOf (search_of subject.now progress.old.solver) completion.now m.now answer }
    ensures held { IsHeld subject.now progress.new.solver progress.new.brought.items }
    ensures added { HasAdded progress.old.solver progress.new.solver }
    ensures units { counted_steps progress.new.solver.steps ≡ counted_steps progress.old.solver.steps }
    ensures tied { OnOk result (IsTied subject.now parting.new progress.new.solver.steps) }
    ensures put { OnOk result (HasTaken (search_of subject.now progress.old.solver)
        (search_of subject.now progress.new.solver) completion.now m.now answer false) }
{
    laws_of_tuple_order();
    one_literal();
    variables_have_parts();
    let home = put_match(
        subject,
        &mut progress.solver,
        &parting.parts,
        alloc,
        completion,
        m,
        answer,
        false,
        guides,
    )?;
    tie(subject, parting, alloc, answer, home)
}

/// Puts the axiom of a match after the steps, if what it speaks of is true with nothing assumed, so that its answer is, too. Says
/// whether it was put. No unit is taken.
pub(crate) fn add_settled(
    subject: &Subject<'_>,
    progress: &mut Progress,
    parting: &mut Parting,
    alloc: Global,
    completion: &Completion,
    m: &Match,
    answer: u32,
    guides: &mut Guides,
) -> Result<bool, NoMemory>
    requires held { IsHeld subject.now progress.old.solver progress.old.brought.items }
    requires tied { IsTied subject.now parting.old progress.old.solver.steps }
    requires is_match { IsMatchOf (search_of subject.now progress.old.solver) completion.now m.now answer }
    ensures held { IsHeld subject.now progress.new.solver progress.new.brought.items }
    ensures added { HasAdded progress.old.solver progress.new.solver }
    ensures units { counted_steps progress.new.solver.steps ≡ counted_steps progress.old.solver.steps }
    ensures tied { OnOk result (IsTied subject.now parting.new progress.new.solver.steps) }
    ensures put { IfOk result (λ is_put. is_put ≡ true → HasTaken (search_of subject.now progress.old.solver)
        (search_of subject.now progress.new.solver) completion.now m.now answer false) }
{
    if !is_settled(subject, &progress.solver, alloc, completion, m, answer)? {
        return Ok(false);
    }
    add_match(
        subject, progress, parting, alloc, completion, m, answer, guides,
    )?;
    Ok(true)
}

// Is all that the axiom of a match speaks of true with nothing assumed? No clause says so: what it spares is work.
fn is_settled(
    subject: &Subject<'_>,
    solver: &Solver,
    alloc: Global,
    completion: &Completion,
    m: &Match,
    answer: u32,
) -> Result<bool, NoMemory>
    requires { IsMatchFor subject.now completion.now m.now answer }
{
    let lits = subject.match_lits(alloc, completion, m, answer)?;
    let own = subject.answer(answer);
    for lit in lits.as_slice() {
        if *lit != own && !is_known(solver, lit.negated()) {
            return Ok(false);
        }
    }
    Ok(true)
}

/// Is a literal true with nothing assumed, as far as unit propagation went? No clause says so: what it spares is work.
pub(crate) fn is_known(solver: &Solver, lit: Lit) -> bool {
    root_value(solver.trail(), lit.var()) == Some(!lit.negative())
}

/// Puts the axiom of a match after the steps, as one that the search demands: it is false where the others are true. It takes
/// a unit.
pub(crate) fn demand_match(
    subject: &Subject<'_>,
    progress: &mut Progress,
    parting: &mut Parting,
    alloc: Global,
    completion: &Completion,
    m: &Match,
    answer: u32,
    truths: &Assignment,
    budget: &mut Budget,
    guides: &mut Guides,
) -> Result<(), NoMemory>
    requires held { IsHeld subject.now progress.old.solver progress.old.brought.items }
    requires tied { IsTied subject.now parting.old progress.old.solver.steps }
    requires is_match { IsMatchOf (search_of subject.now progress.old.solver) completion.now m.now answer }
    requires unit { 0 < budget.old }
    requires counter { IsAnswerCounter (search_of subject.now progress.old.solver) answer truths.now completion.now }
    ensures held { IsHeld subject.now progress.new.solver progress.new.brought.items }
    ensures added { HasAdded progress.old.solver progress.new.solver }
    ensures units { counted_steps progress.new.solver.steps + budget.new ≡ counted_steps progress.old.solver.steps + budget.old }
    ensures tied { OnOk result (IsTied subject.now parting.new progress.new.solver.steps) }
    ensures put { OnOk result (HasTaken (search_of subject.now progress.old.solver)
        (search_of subject.now progress.new.solver) completion.now m.now answer true) }
    ensures taken { OnOk result (budget.new + 1 ≡ budget.old) }
{
    laws_of_tuple_order();
    one_literal();
    variables_have_parts();
    let home = put_match(
        subject,
        &mut progress.solver,
        &parting.parts,
        alloc,
        completion,
        m,
        answer,
        true,
        guides,
    )?;
    take_unit(budget);
    tie(subject, parting, alloc, answer, home)
}

// Takes a unit.
fn take_unit(budget: &mut Budget)
    requires { 0 < budget.old }
    ensures { budget.new + 1 ≡ budget.old }
{
    *budget = Budget::new(budget.left() - 1);
}

// Puts the axiom of a match after the steps, counted or not. Says in which part its literals lie beside that of the answer, if they
// lie in one.
fn put_match(
    subject: &Subject<'_>,
    solver: &mut Solver,
    parts: &VariableParts,
    alloc: Global,
    completion: &Completion,
    m: &Match,
    answer: u32,
    counted: bool,
    guides: &mut Guides,
) -> Result<Option<u32>, NoMemory>
    requires is_match { IsMatchFor subject.now completion.now m.now answer }
    requires parts { AreParts subject.now parts.now }
    requires statements { solver.old.frame.statements ≡ vars_of subject.now }
    ensures frame { solver.new.frame ≡ solver.old.frame }
    ensures scope { solver.new.trail.scope ≡ solver.old.trail.scope }
    ensures ok { IfOk result (λ home. HasMatchedIn subject.now parts.now home completion.now m.now answer counted
        solver.old.steps solver.new.steps) }
    ensures err { OnErr result (solver.new.steps ≡ solver.old.steps) }
{
    let lits = subject.match_lits(alloc, completion, m, answer)?;
    let var = subject.answer(answer).var();
    let home = home_of(subject, parts, lits.as_slice(), var);
    let label = LabelRef::Match {
        disjunct: m.disjunct,
        entities: m.entities.as_slice(),
        values: m.values.as_slice(),
    };
    solver.add_clause(label, lits.as_slice(), counted, guides)?;
    Ok(home)
}
