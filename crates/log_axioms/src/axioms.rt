ghost use Rattle.std.specs.Prelude.{◌≡◌, ◌<◌, ◌≤◌, Some, IfOk, IfSome, length, option_map, slice_get};
ghost use Rattle.entity_rows.specs.Members.{AreEntityRows};
ghost use Rattle.spec_model.specs.Facts.{IsRelation};
ghost use Rattle.spec_model.specs.declared.relation.Relation.{Relation};
ghost use Rattle.log_axioms.specs.Axioms.{axiom_of, is_axiom, of_rule, of_copy, of_query, in_relation, given_clause, transitive_clause, above_clause, top_clause, last_clause, value_clause};
ghost use Rattle.refutation_log.specs.Steps.{label_of};

use crate::SignedList;
use crate::answers::Answers;
use crate::clauses::{
    above_clause, given_clause, last_clause, top_clause, transitive_clause, value_clause,
};
use crate::compare::is_clause;
use crate::copies::copy_clause;
use crate::entities::{EntityIndex, entity_index};
use crate::matches::match_clause;
use crate::rules::rule_clause;
use currency_base::{
    AttrId, CopyId, EntId, Lit, NoMemory, Pair, RelId, RowId, RuleId, Tuple, Value,
};
use entity_rows::EntityRows;
use query_model::Query;
use refutation_log::{LabelRef, Statement};
use spec_model::{CopyMap, Relation, Rule, Specification};
use std::alloc::Global;
use std::marker::Model;

/// The axioms of a specification and of what is posed of it: a query, if there is one, and the tuples that
/// statements name. With an index of the rows of the entities. Contracts see the specification and what is
/// posed.
#[derive(Drop)]
pub struct Axioms<'a> {
    alloc: Global,
    spec: &'a Specification,
    query: Option<&'a Query>,
    answers: Answers<'a>,
    index: EntityIndex,
}

impl<'a> Model for Axioms<'a> {
    ghost use Rattle.std.specs.Prelude.{option_map};
    ghost use Rattle.log_axioms.specs.Entities.{AreIndexed};
    ghost use Rattle.log_axioms.specs.Posed.{Basis};

    ghost Value = { Basis };

    ghost view = { λ a. record {
      spec = a.spec.now;
      posed =
          record { query = option_map (λ q. q.now) a.query; answers = a.answers };
    } };

    ghost invariant = { λ a. AreIndexed a.spec.now.relations a.index };
}

impl<'a> Axioms<'a> {
    /// The axioms of a specification, of a query, if one is asked, and of the tuples that statements name, by
    /// their places. Takes time in proportion to the rows and entities, and to the tuples.
    pub fn new(
        alloc: Global,
        spec: &'a Specification,
        query: Option<&'a Query>,
        answers: &'a [Tuple],
    ) -> Result<Axioms<'a>, NoMemory>
        ensures { IfOk result (λ axioms. axioms ≡ record {
          spec = spec.now;
          posed =
              record { query = option_map (λ q. q.now) query.entry; answers = answers.now };
        }) }
    {
        let index = entity_index(alloc, spec.relations())?;
        Ok(Axioms {
            alloc,
            spec,
            query,
            answers: Answers::new(answers),
            index,
        })
    }

    /// Are the literals, as a set, the clause of the label? A label whose condition does not hold has
    /// none, and none has a match where no query is asked. The variable of a literal is the place of its
    /// statement. Want of memory is also answered where the clause names a tuple past the numbers of 32 bits.
    pub fn is_axiom(
        &self,
        statements: &[Statement],
        label: LabelRef<'_>,
        lits: &[Lit],
    ) -> Result<bool, NoMemory>
        ensures { IfOk result (λ answer. answer ≡ is_axiom self.now.spec self.now.posed statements.now
            (label_of label.entry) lits.now) }
    {
        match self.clause_of(label)? {
            Some(clause) => Ok(is_clause(
                self.spec.relations(),
                statements,
                lits,
                clause.as_slice(),
            )),
            None => Ok(false),
        }
    }

    /// The clause of a label, if it has one. Want of memory is also answered where it names a tuple past the
    /// numbers of 32 bits.
    pub fn clause_of(&self, label: LabelRef<'_>) -> Result<Option<SignedList>, NoMemory>
        ensures { IfOk result (λ clause. clause ≡ axiom_of self.now.spec self.now.posed (label_of label.entry)) }
    {
        match label {
            LabelRef::Given {
                rel,
                attr,
                earlier,
                later,
            } => self.given(
                rel,
                Pair {
                    attr,
                    earlier,
                    later,
                },
            ),
            LabelRef::Transitive {
                rel,
                attr,
                first,
                second,
                third,
            } => self.transitive(rel, attr, first, second, third),
            LabelRef::Rule { rule, rows } => self.rule(rule, rows),
            LabelRef::Copy {
                copy,
                place,
                first,
                second,
            } => self.copy(copy, place, first, second),
            LabelRef::Above {
                rel,
                attr,
                row,
                other,
            } => self.above(rel, attr, row, other),
            LabelRef::Top { rel, attr, row } => self.top(rel, attr, row),
            LabelRef::Last { rel, attr, row } => self.last(rel, attr, row),
            LabelRef::Value { rel, attr, row } => self.value(rel, attr, row),
            LabelRef::Match {
                disjunct,
                entities,
                values,
            } => self.matched(disjunct, entities, values),
        }
    }
}

// The clauses of each kind of label, and what they are made of.
impl Axioms<'_> {
    // A relation, if it is there.
    fn relation(&self, rel: RelId) -> Option<&Relation>
        ensures value { option_map (λ r. r.now) result ≡ slice_get self.now.spec.relations rel.0 }
        ensures facts { IfSome result (λ r. IsRelation r.now) }
    {
        self.spec.relations().get(rel.0 as usize)
    }

    // The rows of the entities of a relation.
    fn members(&self, rel: RelId) -> &EntityRows
        requires { rel.0 < length self.now.spec.relations }
        ensures { (r : Relation) → slice_get self.now.spec.relations rel.0 ≡ Some r → AreEntityRows r.rows
            (length r.entities) result.now }
    {
        self.index.get(rel.0 as usize)
    }

    fn given(&self, rel: RelId, pair: Pair) -> Result<Option<SignedList>, NoMemory>
        ensures { IfOk result (λ clause. clause ≡ in_relation self.now.spec.relations rel
            (given_clause rel pair.attr pair.earlier pair.later)) }
    {
        match self.relation(rel) {
            Some(relation) => given_clause(self.alloc, rel, pair, relation),
            None => Ok(None),
        }
    }

    fn transitive(
        &self,
        rel: RelId,
        attr: AttrId,
        first: RowId,
        second: RowId,
        third: RowId,
    ) -> Result<Option<SignedList>, NoMemory>
        ensures { IfOk result (λ clause. clause ≡ in_relation self.now.spec.relations rel
            (transitive_clause rel attr first second third)) }
    {
        match self.relation(rel) {
            Some(relation) => transitive_clause(
                self.alloc, rel, attr, first, second, third, relation,
            ),
            None => Ok(None),
        }
    }

    fn above(
        &self,
        rel: RelId,
        attr: AttrId,
        row: RowId,
        other: RowId,
    ) -> Result<Option<SignedList>, NoMemory>
        ensures { IfOk result (λ clause. clause ≡ in_relation self.now.spec.relations rel (above_clause rel attr row other)) }
    {
        match self.relation(rel) {
            Some(relation) => above_clause(self.alloc, rel, attr, row, other, relation),
            None => Ok(None),
        }
    }

    fn top(&self, rel: RelId, attr: AttrId, row: RowId) -> Result<Option<SignedList>, NoMemory>
        ensures { IfOk result (λ clause. clause ≡ in_relation self.now.spec.relations rel (top_clause rel attr row)) }
    {
        match self.relation(rel) {
            Some(relation) => top_clause(self.alloc, rel, attr, row, relation, self.members(rel)),
            None => Ok(None),
        }
    }

    fn last(&self, rel: RelId, attr: AttrId, row: RowId) -> Result<Option<SignedList>, NoMemory>
        ensures { IfOk result (λ clause. clause ≡ in_relation self.now.spec.relations rel (last_clause rel attr row)) }
    {
        match self.relation(rel) {
            Some(relation) => last_clause(self.alloc, rel, attr, row, relation),
            None => Ok(None),
        }
    }

    fn value(&self, rel: RelId, attr: AttrId, row: RowId) -> Result<Option<SignedList>, NoMemory>
        ensures { IfOk result (λ clause. clause ≡ in_relation self.now.spec.relations rel (value_clause rel attr row)) }
    {
        match self.relation(rel) {
            Some(relation) => value_clause(self.alloc, rel, attr, row, relation, self.members(rel)),
            None => Ok(None),
        }
    }

    fn rule(&self, rule: RuleId, rows: &[RowId]) -> Result<Option<SignedList>, NoMemory>
        ensures { IfOk result (λ clause. clause ≡ of_rule self.now.spec rows.now (slice_get self.now.spec.rules rule.0)) }
    {
        match self.spec.rules().get(rule.0 as usize) {
            Some(rule) => self.rule_of(rule, rows),
            None => Ok(None),
        }
    }

    fn rule_of(&self, rule: &Rule, rows: &[RowId]) -> Result<Option<SignedList>, NoMemory>
        requires { length rule.now.predicates ≤ 16 }
        ensures { IfOk result (λ clause. clause ≡ of_rule self.now.spec rows.now (Some rule.now)) }
    {
        match self.relation(rule.relation) {
            Some(relation) => rule_clause(self.alloc, rule, rows, relation),
            None => Ok(None),
        }
    }

    fn copy(
        &self,
        copy: CopyId,
        place: u32,
        first: RowId,
        second: RowId,
    ) -> Result<Option<SignedList>, NoMemory>
        ensures { IfOk result (λ clause. clause ≡ of_copy self.now.spec place first second
            (slice_get self.now.spec.copies copy.0)) }
    {
        match self.spec.copies().get(copy.0 as usize) {
            Some(copy) => self.copy_of(copy, place, first, second),
            None => Ok(None),
        }
    }

    fn copy_of(
        &self,
        copy: &CopyMap,
        place: u32,
        first: RowId,
        second: RowId,
    ) -> Result<Option<SignedList>, NoMemory>
        ensures { IfOk result (λ clause. clause ≡ of_copy self.now.spec place first second (Some copy.now)) }
    {
        match self.relation(copy.target()) {
            Some(target) => match self.relation(copy.source()) {
                Some(source) => copy_clause(self.alloc, copy, place, first, second, target, source),
                None => Ok(None),
            },
            None => Ok(None),
        }
    }

    fn matched(
        &self,
        disjunct: u32,
        entities: &[EntId],
        values: &[Value],
    ) -> Result<Option<SignedList>, NoMemory>
        ensures { IfOk result (λ clause. clause ≡ of_query self.now.spec.relations self.now.posed.answers disjunct
            entities.now values.now self.now.posed.query) }
    {
        let Some(query) = self.query else {
            return Ok(None);
        };
        match query.disjuncts.as_slice().get(disjunct as usize) {
            Some(disjunct) => match_clause(
                self.alloc,
                self.spec,
                &self.index,
                &self.answers,
                disjunct,
                entities,
                values,
            ),
            None => Ok(None),
        }
    }
}
