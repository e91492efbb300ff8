ghost use Rattle.std.specs.Prelude.{◌≡◌, ◌<◌, ◌≤◌, ◌^◌, length, option_map, take, Contains, Some, slice_get, IfOk, IfSome};
ghost use Rattle.entity_ties.specs.Parts.{list_at};
ghost use Rattle.match_clauses.specs.Clauses.{SaysAnswer};
ghost use Rattle.spec_model.specs.Completion.{HasShape};
ghost use Rattle.spec_model.specs.declared.relation.Relation.{Relation};
ghost use Rattle.order_literals.specs.Numbers.{IsPairOf, is_wanted, numbers_of};
ghost use Rattle.order_literals.specs.Said.{Says, before, last, top};
ghost use Rattle.order_links.specs.Lists.{IsListOf};
ghost use Rattle.spec_model.specs.Facts.{IsRelation};
ghost use Rattle.value_names.specs.Names.{name_of};
ghost use Rattle.order_literals.specs.Statements.{statements_of};
ghost use Rattle.order_clauses.specs.Clauses.{AreAxioms, AreTransitive};
ghost use Rattle.completion_build.specs.Ranked.{IsBuilt};
ghost use Rattle.order_start.specs.Guess.{IsGuess};
ghost use Rattle.search_logs.specs.SearchLogs.{IsWithin};
ghost use Rattle.order_search.specs.Kept.{AreLitsFor, AreRowsOf, IsMatchFor, vars_of};
ghost use Rattle.order_search.specs.Parts.{AreParts, IsRowIn, parted_of};
ghost use Rattle.order_search.specs.Searches.{IsWantedRow};
ghost use Rattle.order_search.specs.Tied.{IsAnswerVar};
ghost use Rattle.variable_parts.specs.Parts.{label_at, row_cell};

use completion_build::{Built, rank};
use completion_fill::fill;
use currency_base::{Assignment, AttrId, EntId, Lit, LitList, NoMemory, RelId, RowId, TupleList};
use entity_ties::Ties;
use known_models::PartedSpec;
use match_clauses::{answer_lit, match_lits};
use order_clauses::{clauses, transitive};
use order_limits::number;
use order_links::ListId;
use order_literals::{Numbering, Wanted};
use order_start::start;
use query_model::{Match, Query};
use refutation_log::{Log, Statement, StatementList, Steps};
use search_trail::Values;
use spec_model::{Completion, Relation, Specification};
use std::alloc::Global;
use std::marker::Model;
use variable_parts::VariableParts;

/// A specification, the query that is posed of it, if one is, and the numbers of the statements on it. Contracts see these two
/// and what is wanted.
#[derive(Drop)]
pub(crate) struct Subject<'a> {
    spec: &'a Specification,
    query: Option<&'a Query>,
    wanted: Wanted,
    numbering: Numbering,
}

impl<'a> Model for Subject<'a> {
    ghost use Rattle.std.specs.Prelude.{◌≡◌};
    ghost use Rattle.order_literals.specs.Numbers.{numbers_of};
    ghost use Rattle.std.specs.Prelude.{option_map};
    ghost use Rattle.order_search.specs.Searches.{Subject as Subjects};

    ghost Value = { Subjects };

    ghost view = { λ s. record { spec = s.spec.now; query = option_map (λ q. q.now) s.query; wanted = s.wanted } };

    ghost invariant = { λ s. s.numbering ≡ numbers_of s.spec.now.relations s.wanted };
}

impl<'a> Subject<'a> {
    /// Numbers the statements.
    pub(crate) fn new(
        alloc: Global,
        spec: &'a Specification,
        query: Option<&'a Query>,
        wanted: Wanted,
    ) -> Result<Subject<'a>, NoMemory>
        requires within { IsWithin spec.now }
        requires answers { wanted.answers ≤ 1000000 }
        ensures spec { IfOk result (λ s. s.spec ≡ spec.now) }
        ensures query { IfOk result (λ s. s.query ≡ option_map (λ q. q.now) query.entry) }
        ensures wanted { IfOk result (λ s. s.wanted ≡ wanted) }
    {
        match number(alloc, spec, &wanted) {
            Ok(numbering) => Ok(Subject {
                spec,
                query,
                wanted,
                numbering,
            }),
            Err(error) => Err(error),
        }
    }

    /// How many statements are numbered.
    pub(crate) fn vars(&self) -> u32
        ensures value { result ≡ length (vars_of self.now) }
        ensures few { result < 2 ^ 31 }
    {
        self.numbering.vars()
    }

    /// How many answers are posed.
    pub(crate) fn answers(&self) -> u32
        ensures { result ≡ self.now.wanted.answers }
    {
        self.wanted.answers
    }

    /// The answer that the statement of a variable is on, if it is on one. Takes logarithmic time and no memory.
    pub(crate) fn answer_of(&self, var: u32) -> Option<u32>
        requires { var < length (vars_of self.now) }
        ensures { IfSome result (λ answer. IsAnswerVar self.now answer var) }
    {
        match self.numbering.meaning_of(var) {
            Statement::Answer { tuple } => Some(tuple),
            Statement::Before { .. } | Statement::Top { .. } | Statement::Last { .. } => None,
        }
    }

    /// The smallest closed parts, and the variables of each.
    pub(crate) fn parts(&self, alloc: Global) -> Result<VariableParts, NoMemory>
        ensures { IfOk result (AreParts self.now) }
    {
        let ties = match Ties::new(alloc, self.spec) {
            Ok(ties) => ties,
            Err(error) => return Err(error),
        };
        match VariableParts::new(alloc, self.spec, &self.numbering, &self.wanted, ties) {
            Ok(parts) => Ok(parts),
            Err(error) => Err(error),
        }
    }

    /// What is numbered, with its parts.
    pub(crate) fn parted<'b>(&'b self, parts: &'b VariableParts) -> PartedSpec<'b>
        requires { AreParts self.now parts.now }
        ensures { result ≡ parted_of self.now parts.now }
    {
        PartedSpec::new(self.spec, &self.wanted, &self.numbering, parts)
    }

    /// The part of a variable, unless its statement is on an answer. Takes logarithmic time and no memory.
    pub(crate) fn part_of(&self, parts: &VariableParts, var: u32) -> Option<u32>
        requires within { var < length (vars_of self.now) }
        requires parts { AreParts self.now parts.now }
        ensures { IfSome result (λ part. Contains (list_at parts.now.parts part) var) }
    {
        match self.numbering.meaning_of(var) {
            Statement::Before { rel, earlier, .. } => Some(self.part_of_row(parts, rel, earlier)),
            Statement::Top { rel, row, .. } => Some(self.part_of_row(parts, rel, row)),
            Statement::Last { rel, row, .. } => Some(self.part_of_row(parts, rel, row)),
            Statement::Answer { .. } => None,
        }
    }

    // The part of the entity of a row.
    fn part_of_row(&self, parts: &VariableParts, rel: RelId, row: RowId) -> u32
        requires row { IsRowIn self.now.spec rel row }
        requires parts { AreParts self.now parts.now }
        ensures { label_at parts.now.ties (row_cell self.now.spec.relations rel.0 row.0) ≡ Some result }
    {
        let relation = self.relation(rel);
        parts.part_of(rel, relation.rows.get(row.0 as usize).entity)
    }

    /// A copy of a completion.
    pub(crate) fn copied(
        &self,
        alloc: Global,
        completion: &Completion,
    ) -> Result<Completion, NoMemory>
        requires { HasShape self.now.spec.relations completion.now }
        ensures { IfOk result (λ c. c ≡ completion.now) }
    {
        let mut copy = match Completion::new(alloc, self.spec) {
            Ok(copy) => copy,
            Err(error) => return Err(error),
        };
        match fill(alloc, self.spec, completion, &mut copy) {
            Ok(()) => Ok(copy),
            Err(error) => Err(error),
        }
    }

    /// A log of these answers with the axioms that are brought in from the start.
    pub(crate) fn log(&self, alloc: Global, answers: TupleList) -> Result<Log, NoMemory>
        ensures answers { IfOk result (λ log. log.answers ≡ answers) }
        ensures statements { IfOk result (λ log. log.statements ≡ vars_of self.now) }
        ensures steps { IfOk result (λ log. AreAxioms self.now.spec self.now.wanted.currents (vars_of self.now) log.steps) }
    {
        let statements = match statements(alloc, &self.numbering) {
            Ok(statements) => statements,
            Err(error) => return Err(error),
        };
        let steps = match clauses(alloc, self.spec, &self.numbering, &self.wanted) {
            Ok(steps) => steps,
            Err(error) => return Err(error),
        };
        Ok(Log {
            answers,
            statements,
            steps,
        })
    }

    /// A guess at a model, from what is known; the pairs that are free are turned round where that is said.
    pub(crate) fn start(
        &self,
        alloc: Global,
        known: &Values,
        turned: bool,
    ) -> Result<Assignment, NoMemory>
        requires { length known.now.given ≡ length (vars_of self.now) }
        ensures { IfOk result (IsGuess (vars_of self.now)) }
    {
        start(
            alloc,
            self.spec,
            &self.numbering,
            &self.wanted,
            known,
            turned,
        )
    }

    /// What an assignment says of the order of the rows.
    pub(crate) fn rank(&self, alloc: Global, truths: &Assignment) -> Result<Built, NoMemory>
        requires { length truths.now ≡ length (vars_of self.now) }
        ensures { IfOk result (IsBuilt self.now.spec.relations (vars_of self.now) truths.now) }
    {
        rank(alloc, self.spec, &self.numbering, &self.wanted, truths)
    }

    /// The axioms on three rows of a list.
    pub(crate) fn transitive(
        &self,
        alloc: Global,
        rel: RelId,
        attr: AttrId,
        ent: EntId,
    ) -> Result<Steps, NoMemory>
        requires rel { rel.0 < length self.now.spec.relations }
        requires attr { (r : Relation) → slice_get self.now.spec.relations rel.0 ≡ Some r → attr.0 < length r.attrs }
        requires ent { (r : Relation) → slice_get self.now.spec.relations rel.0 ≡ Some r → ent.0 < length r.entities }
        ensures { IfOk result (AreTransitive self.now.spec (vars_of self.now) rel attr ent.0) }
    {
        transitive(
            alloc,
            self.spec,
            &self.numbering,
            &self.wanted,
            rel,
            attr,
            ent,
        )
    }

    /// The literal that says that of two rows of one entity the first stands before the second.
    pub(crate) fn before(&self, rel: RelId, attr: AttrId, first: RowId, second: RowId) -> Lit
        requires { IsPairOf (numbers_of self.now.spec.relations self.now.wanted) rel.0 attr.0 first second }
        ensures { Says (vars_of self.now) result (before rel attr first second) }
    {
        self.numbering.before(rel, attr, first, second)
    }

    /// The literal that says that the tuple at a place of the answers is one.
    pub(crate) fn answer(&self, place: u32) -> Lit
        requires { place < self.now.wanted.answers }
        ensures { SaysAnswer (vars_of self.now) place result }
    {
        answer_lit(&self.numbering, place)
    }

    /// The literals of the axiom of a match of the query that is posed.
    pub(crate) fn match_lits(
        &self,
        alloc: Global,
        completion: &Completion,
        m: &Match,
        answer: u32,
    ) -> Result<LitList, NoMemory>
        requires { IsMatchFor self.now completion.now m.now answer }
        ensures { IfOk result (AreLitsFor self.now completion.now m.now answer) }
    {
        match self.query {
            Some(query) => match_lits(
                alloc,
                self.spec,
                &self.numbering,
                &self.wanted,
                query,
                completion,
                m,
                answer,
            ),
            None => unreachable!(),
        }
    }

    /// The literal that says that the value of a row of a wanted relation is current.
    pub(crate) fn current(&self, rel: RelId, attr: AttrId, row: RowId) -> Lit
        requires { IsWantedRow self.now.spec self.now.wanted rel attr row }
        ensures { (r : Relation) → slice_get self.now.spec.relations rel.0 ≡ Some r
            → Says (vars_of self.now) result (last rel attr (name_of r.rows attr.0 row)) }
    {
        let _relation = self.relation(rel);
        let name = self.numbering.name(rel, attr, row);
        self.numbering.last(rel, attr, name)
    }

    /// The literal that says that a row of a wanted relation stands last.
    pub(crate) fn top(&self, rel: RelId, attr: AttrId, row: RowId) -> Lit
        requires { IsWantedRow self.now.spec self.now.wanted rel attr row }
        ensures { Says (vars_of self.now) result (top rel attr row) }
    {
        let _relation = self.relation(rel);
        self.numbering.top(rel, attr, row)
    }

    /// Are the current values of a relation wanted?
    pub(crate) fn is_wanted(&self, rel: RelId) -> bool
        requires { rel.0 < length self.now.spec.relations }
        ensures { result ≡ is_wanted self.now.wanted.currents rel.0 }
    {
        self.numbering.is_wanted(rel)
    }

    /// The rows of a list, ascending.
    pub(crate) fn rows(&self, list: ListId) -> &[RowId]
        requires { IsListOf self.now.spec.relations list }
        ensures { AreRowsOf self.now list result.now }
    {
        self.numbering.lists(list.rel).of_entity(list.ent)
    }

    // A relation of the specification.
    fn relation(&self, rel: RelId) -> &Relation
        requires { rel.0 < length self.now.spec.relations }
        ensures value { slice_get self.now.spec.relations rel.0 ≡ Some result.now }
        ensures facts { IsRelation result.now }
    {
        &self.spec.relations()[rel.0 as usize]
    }
}

// The statements, in the order of their numbers.
fn statements(alloc: Global, numbering: &Numbering) -> Result<StatementList, NoMemory>
    ensures { IfOk result (λ list. list ≡ statements_of numbering.now) }
{
    let mut statements = StatementList::new(alloc);
    for var in 0..numbering.vars() {
        match statements.push(numbering.meaning_of(var)) {
            Ok(()) => {}
            Err(error) => return Err(error),
        }
    }
    Ok(statements)
}
