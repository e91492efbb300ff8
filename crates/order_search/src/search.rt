ghost use Rattle.std.specs.Prelude.{◌≡◌, ◌+◌, ◌<◌, IfOk, IfSome, IsErr, OnErr, OnOk, Some, false, length, option_map, slice_get, true};
ghost use Rattle.currency_base.specs.Literals.{var_of};
ghost use Rattle.match_clauses.specs.Clauses.{SaysAnswer};
ghost use Rattle.refutation_log.specs.Counted.{IsOpenLog, counted_steps};
ghost use Rattle.search_logs.specs.SearchLogs.{IsPosed, IsWithin};
ghost use Rattle.order_search.specs.Searches.{AreClausesTrue, HasGone, HasTaken, IsAnswerCounter, IsMatchOf, IsSearch, IsWantedRow, Tells};
ghost use Rattle.order_clauses.specs.Subject.{IsPairIn};
ghost use Rattle.order_links.specs.Lists.{IsListOf};
ghost use Rattle.order_literals.specs.Said.{Says, before, last};
ghost use Rattle.spec_model.specs.declared.relation.Relation.{Relation};
ghost use Rattle.value_names.specs.Names.{name_of};

use crate::finding::found;
use crate::linked::bring_linked;
use crate::matching::{add_match, add_settled, demand_match, is_known};
use crate::opening::{begun, guess};
use crate::parting::{Parting, none_done};
use crate::progress::Progress;
use crate::subject::Subject;
use crate::{Outcome, When};
use currency_base::{Assignment, AttrId, Lit, NoMemory, RelId, RowId, TupleList};
use order_links::{Links, ListId};
use order_literals::{Wanted, one_literal};
use query_model::{Match, Query};
use refutation_log::Log;
use solver_guides::Guides;
use spec_model::{Completion, RelList, Specification};
use std::alloc::Global;
use std::marker::Model;
use watch_solver::Budget;

/// A search over the statements of a specification. Contracts see its log, the specification, what is wanted, and whether a
/// call was refused memory: after one that was, every later one that takes memory answers so.
#[derive(Drop)]
pub struct Search<'a> {
    subject: Subject<'a>,
    progress: Progress,
    // which lists were brought in for a goal
    links: Links<'a>,
    parting: Parting,
    // a call was refused memory
    failed: bool,
}

impl<'a> Model for Search<'a> {
    ghost use Rattle.std.specs.Prelude.{◌≡◌, false};
    ghost use Rattle.order_search.specs.Kept.{IsHeld, seen_of};
    ghost use Rattle.order_search.specs.Searches.{Search as Searches};
    ghost use Rattle.order_search.specs.Tied.{IsTied};

    ghost Value = { Searches };

    ghost view = { λ s. seen_of s.subject s.progress.solver s.failed };

    ghost invariant = { λ s. IsHeld s.subject s.progress.solver s.progress.brought.items
        × (s.links ≡ s.subject.spec.relations)
        × (s.failed ≡ false → IsTied s.subject s.parting s.progress.solver.steps) };
}

impl<'a> Search<'a> {
    /// A search whose log has the axioms that are brought in from the start, where a query may be posed, the tuples whose
    /// being an answer is numbered are these, and the current values of these relations are wanted. The log takes the
    /// tuples. The guides make room for its variables, and learn of a first guess at a model.
    pub fn new(
        alloc: Global,
        spec: &'a Specification,
        query: Option<&'a Query>,
        currents: RelList,
        answers: TupleList,
        guides: &mut Guides,
    ) -> Result<Search<'a>, NoMemory>
        requires within { IsWithin spec.now }
        requires posed { IsPosed (record { query = option_map (λ q. q.now) query; answers = answers }) }
        ensures spec { IfOk result (λ s. s.spec ≡ spec.now) }
        ensures posed { IfOk result (λ s. s.posed ≡ record { query = option_map (λ q. q.now) query.entry; answers = answers }) }
        ensures wanted { IfOk result (λ s. s.wanted ≡ record { currents = currents; answers = length answers }) }
        ensures uncounted { IfOk result (λ s. counted_steps s.log.steps ≡ 0) }
        ensures whole { IfOk result (λ s. s.failed ≡ false) }
    {
        let wanted = Wanted {
            currents,
            answers: answers.len() as u32,
        };
        let subject = match Subject::new(alloc, spec, query, wanted) {
            Ok(subject) => subject,
            Err(error) => return Err(error),
        };
        let links = match Links::new(alloc, spec) {
            Ok(links) => links,
            Err(error) => return Err(error),
        };
        let parting = match none_done(&subject, alloc) {
            Ok(parting) => parting,
            Err(error) => return Err(error),
        };
        match begun(&subject, alloc, answers, guides) {
            Ok(progress) => Ok(Search {
                subject,
                progress,
                links,
                parting,
                failed: false,
            }),
            Err(error) => Err(error),
        }
    }

    /// No work: the caller learns what holds at any moment.
    pub fn is_search(&self)
        ensures { IsSearch self.now }
    {
        let _failed = self.failed;
    }

    /// The log.
    pub fn log(&self) -> &Log
        ensures { result.now ≡ self.now.log }
    {
        self.progress.solver.log()
    }

    /// The log, which is all that is left.
    pub fn into_log(self) -> Log
        ensures { result ≡ self.entry.log }
    {
        self.progress.into_log()
    }

    /// Decides whether the goal is true in every consistent completion, or, where there is none, whether there is a
    /// consistent completion. It goes part by part: the part of the goal alone, where a model is known of all parts, or else each
    /// part anew; so a goal costs what its part costs, and the copy of the model. One that is true where nothing is assumed costs
    /// neither. An answer is of the part in which all its matches lie whose axioms are among the steps, if they lie in one; where it
    /// fails there, each other part in which answers lie is made anew, with as many of these none as the guides come to. An answer
    /// of no part is decided over all variables. Each list that goes round in a model has all its axioms on three rows brought in, and the search goes on; so
    /// a list is brought in at most once. Each clause that is learned takes a unit of the budget; axioms take none. After want
    /// of memory every later call answers it.
    pub fn decide(
        &mut self,
        alloc: Global,
        goal: Option<Lit>,
        budget: &mut Budget,
        guides: &mut Guides,
    ) -> Result<Outcome, NoMemory>
        requires { IfSome goal (λ lit. var_of lit < length self.old.log.statements) }
        ensures gone { HasGone self.old self.new }
        ensures units { counted_steps self.new.log.steps + budget.new ≡ counted_steps self.old.log.steps + budget.old }
        ensures found { IfOk result (Tells self.new goal budget.new) }
        ensures stays { self.old.failed ≡ true → IsErr result }
        ensures fails { OnErr result (self.new.failed ≡ true) }
        ensures succeeds { OnOk result (self.new.failed ≡ false) }
    {
        if self.failed {
            return Err(NoMemory);
        }
        let outcome = found(
            &self.subject,
            &mut self.progress,
            &mut self.parting,
            alloc,
            goal,
            budget,
            guides,
        );
        self.failed = outcome.is_err();
        outcome
    }

    /// Brings in a list that a goal is about, and those that it is linked with, so that no model is spent on finding
    /// that they go round; those that are there stay. Tells the ring the variables of those that are near, as it is
    /// said when the list is decided: about how many. No unit is taken.
    pub fn bring(
        &mut self,
        alloc: Global,
        list: ListId,
        when: When,
        guides: &mut Guides,
    ) -> Result<usize, NoMemory>
        requires { IsListOf self.old.spec.relations list }
        ensures gone { HasGone self.old self.new }
        ensures units { counted_steps self.new.log.steps ≡ counted_steps self.old.log.steps }
        ensures stays { self.old.failed ≡ true → IsErr result }
        ensures fails { OnErr result (self.new.failed ≡ true) }
        ensures succeeds { OnOk result (self.new.failed ≡ false) }
    {
        if self.failed {
            return Err(NoMemory);
        }
        let brought = bring_linked(
            &self.subject,
            &mut self.progress,
            &self.links,
            alloc,
            list,
            when,
            guides,
        );
        self.failed = brought.is_err();
        brought
    }

    /// Puts the axiom of a match of the posed query after the steps, whose tuple stands at a place of the posed answers. No unit
    /// is taken.
    pub fn add_match(
        &mut self,
        alloc: Global,
        completion: &Completion,
        m: &Match,
        answer: u32,
        guides: &mut Guides,
    ) -> Result<(), NoMemory>
        requires { IsMatchOf self.old completion.now m.now answer }
        ensures gone { HasGone self.old self.new }
        ensures units { counted_steps self.new.log.steps ≡ counted_steps self.old.log.steps }
        ensures put { OnOk result (HasTaken self.old self.new completion.now m.now answer false) }
        ensures stays { self.old.failed ≡ true → IsErr result }
        ensures fails { OnErr result (self.new.failed ≡ true) }
        ensures succeeds { OnOk result (self.new.failed ≡ false) }
    {
        if self.failed {
            return Err(NoMemory);
        }
        let added = add_match(
            &self.subject,
            &mut self.progress,
            &mut self.parting,
            alloc,
            completion,
            m,
            answer,
            guides,
        );
        self.failed = added.is_err();
        added
    }

    /// Puts the axiom of a match after the steps, as `add_match` does, if what it speaks of is true with nothing assumed, so that
    /// its answer is, too. Says whether it was put. No unit is taken.
    pub fn add_settled(
        &mut self,
        alloc: Global,
        completion: &Completion,
        m: &Match,
        answer: u32,
        guides: &mut Guides,
    ) -> Result<bool, NoMemory>
        requires { IsMatchOf self.old completion.now m.now answer }
        ensures gone { HasGone self.old self.new }
        ensures units { counted_steps self.new.log.steps ≡ counted_steps self.old.log.steps }
        ensures put { IfOk result (λ is_put. is_put ≡ true → HasTaken self.old self.new completion.now m.now answer false) }
        ensures stays { self.old.failed ≡ true → IsErr result }
        ensures fails { OnErr result (self.new.failed ≡ true) }
        ensures succeeds { OnOk result (self.new.failed ≡ false) }
    {
        if self.failed {
            return Err(NoMemory);
        }
        let added = add_settled(
            &self.subject,
            &mut self.progress,
            &mut self.parting,
            alloc,
            completion,
            m,
            answer,
            guides,
        );
        self.failed = added.is_err();
        added
    }

    /// Is a literal true with nothing assumed, as far as unit propagation went? No clause says so: what it spares is work.
    pub fn is_known(&self, lit: Lit) -> bool {
        is_known(&self.progress.solver, lit)
    }

    /// Puts the axiom of a match after the steps as one that the search demands: over the current instance of a completion
    /// in which the tuple is said to be no answer, so that the step is new. It takes a unit, if there is memory.
    pub fn demand_match(
        &mut self,
        alloc: Global,
        completion: &Completion,
        m: &Match,
        answer: u32,
        truths: &Assignment,
        budget: &mut Budget,
        guides: &mut Guides,
    ) -> Result<(), NoMemory>
        requires is_match { IsMatchOf self.old completion.now m.now answer }
        requires unit { 0 < budget.old }
        requires counter { IsAnswerCounter self.old answer truths.now completion.now }
        ensures gone { HasGone self.old self.new }
        ensures units { counted_steps self.new.log.steps + budget.new ≡ counted_steps self.old.log.steps + budget.old }
        ensures put { OnOk result (HasTaken self.old self.new completion.now m.now answer true) }
        ensures taken { OnOk result (budget.new + 1 ≡ budget.old) }
        ensures stays { self.old.failed ≡ true → IsErr result }
        ensures fails { OnErr result (self.new.failed ≡ true) }
        ensures succeeds { OnOk result (self.new.failed ≡ false) }
    {
        if self.failed {
            return Err(NoMemory);
        }
        let demanded = demand_match(
            &self.subject,
            &mut self.progress,
            &mut self.parting,
            alloc,
            completion,
            m,
            answer,
            truths,
            budget,
            guides,
        );
        self.failed = demanded.is_err();
        demanded
    }

    /// No work: the caller learns that the log is open where each step's clause is true.
    pub fn is_open(&self, truths: &Assignment)
        requires { AreClausesTrue truths.now self.now.log.steps }
        ensures { IsOpenLog self.now.log.steps }
    {
        self.progress.solver.is_solver();
    }

    /// Lets the guides begin from another guess at a model: one whose free pairs are turned round.
    pub fn turn(&mut self, alloc: Global, guides: &mut Guides) -> Result<(), NoMemory>
        ensures same { self.new ≡ record self.old { failed = self.new.failed } }
        ensures stays { self.old.failed ≡ true → IsErr result }
        ensures fails { OnErr result (self.new.failed ≡ true) }
        ensures succeeds { OnOk result (self.new.failed ≡ false) }
    {
        if self.failed {
            return Err(NoMemory);
        }
        let guessed = guess(
            &self.subject,
            alloc,
            &mut self.progress.solver,
            true,
            guides,
        );
        self.failed = guessed.is_err();
        guessed
    }

    /// The literal that says that of two rows of one entity the first stands before the second.
    pub fn before(&self, rel: RelId, attr: AttrId, earlier: RowId, later: RowId) -> Lit
        requires { IsPairIn self.now.spec rel attr earlier later }
        ensures says { Says self.now.log.statements result (before rel attr earlier later) }
        ensures within { var_of result < length self.now.log.statements }
    {
        one_literal();
        self.subject.before(rel, attr, earlier, later)
    }

    /// The literal that says that the value of a row of a wanted relation is current.
    pub fn current(&self, rel: RelId, attr: AttrId, row: RowId) -> Lit
        requires { IsWantedRow self.now.spec self.now.wanted rel attr row }
        ensures says { (r : Relation) → slice_get self.now.spec.relations rel.0 ≡ Some r
            → Says self.now.log.statements result (last rel attr (name_of r.rows attr.0 row)) }
        ensures within { var_of result < length self.now.log.statements }
    {
        one_literal();
        self.subject.current(rel, attr, row)
    }

    /// The literal that says that the tuple at a place of the posed answers is an answer.
    pub fn answer(&self, place: u32) -> Lit
        requires { place < length self.now.posed.answers }
        ensures says { SaysAnswer self.now.log.statements place result }
        ensures within { var_of result < length self.now.log.statements }
    {
        one_literal();
        self.subject.answer(place)
    }
}
