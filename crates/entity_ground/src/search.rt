ghost use Rattle.std.specs.Prelude.{◌≡◌, ◌≤◌, ◌-◌, ◌++◌, length, take, is_some, IfOk, OnOk};
ghost use Rattle.denial_rules.specs.Instances.{atom_pair};
ghost use Rattle.denial_rules.specs.Rules.{IsRuleOn};
ghost use Rattle.spec_model.specs.Facts.{IsRelation, kinds_of};
ghost use Rattle.entity_ground.specs.Choosing.{chosen_from};
ghost use Rattle.entity_ground.specs.Grounds.{grounds_among};
ghost use Rattle.entity_ground.specs.Lookups.{AreCandidates, AreLookups};
ghost use Rattle.entity_ground.specs.Tests.{IsFitting, needs, operand_needs, passes, passes_at, passes_from};

use crate::lookup::Lookup;
use currency_base::{NoMemory, Row, RowId};
use denial_rules::{MOST_VARS, Operand, OrderAtom, Predicate};
use flat_lists::FlatLists;
use spec_model::{Relation, Rule};
use std::alloc::Global;
use std::marker::Model;

/// Adds the grounds of a rule among the rows of an entity, by the first variable's row, then by the
/// second's, and so on. Goes deeper only while the predicates pass whose variables all have a row.
pub(crate) fn add_grounds(
    alloc: Global,
    rule: &Rule,
    relation: &Relation,
    members: &[RowId],
    grounds: &mut FlatLists<RowId>,
) -> Result<(), NoMemory>
    requires relation { IsRelation relation.now }
    requires rule { IsRuleOn (kinds_of relation.now) rule.now }
    ensures { OnOk result (grounds.new ≡ grounds.old ++ grounds_among rule.now relation.now.rows members.now) }
{
    let table = relation.rows.as_slice();
    let lookups = match lookups_of(alloc, rule, table, members) {
        Ok(lookups) => lookups,
        Err(NoMemory) => return Err(NoMemory),
    };
    let search = Search {
        rule,
        table,
        members,
        lookups,
    };
    search.add_from([RowId(0); MOST_VARS], 0, grounds)
}

// For each variable of a rule the lookup of its rows, where there is one.
fn lookups_of<'a>(
    alloc: Global,
    rule: &'a Rule,
    table: &'a [Row],
    members: &'a [RowId],
) -> Result<Vec<Option<Lookup<'a>>>, NoMemory>
    ensures { IfOk result (λ lookups. AreLookups rule.now table.now members.now lookups.items) }
{
    let mut all = Vec::new(alloc);
    for var in 0..rule.vars as usize {
        let lookup = match Lookup::new(alloc, rule, table, members, var) {
            Ok(lookup) => lookup,
            Err(NoMemory) => return Err(NoMemory),
        };
        let Ok(()) = all.push(lookup) else {
            return Err(NoMemory);
        };
    }
    Ok(all)
}

// A rule, the rows of its relation, those of one entity, and for each variable the lookup of its rows.
// Contracts see the rule, the rows and those of the entity.
#[derive(Drop)]
struct Search<'a> {
    rule: &'a Rule,
    table: &'a [Row],
    members: &'a [RowId],
    lookups: Vec<Option<Lookup<'a>>>,
}

impl<'a> Model for Search<'a> {
    ghost use Rattle.entity_ground.specs.Lookups.{Searched, IsSearched};

    ghost Value = { Searched };

    ghost view = { λ s. record { rule = s.rule.now; table = s.table.now; members = s.members.now } };

    ghost invariant = { λ s. IsSearched s.rule.now s.table.now s.members.now s.lookups.items };
}

impl Search<'_> {
    // Adds the choices that pass among those that begin with the first `depth` rows of a front and go on
    // with members. The predicates have passed that need fewer rows.
    fn add_from(
        &self,
        front: [RowId; 4],
        depth: usize,
        grounds: &mut FlatLists<RowId>,
    ) -> Result<(), NoMemory>
        requires room { length front ≡ 4 }
        requires within { depth ≤ self.now.rule.vars }
        ensures { OnOk result (grounds.new ≡ grounds.old ++ chosen_from
            (passes_from depth self.now.rule self.now.table) self.now.members (self.now.rule.vars - depth) (take depth front)) }
    {
        let vars = self.vars();
        if !self.passes(&front[..depth]) {
            return Ok(());
        }
        if depth == vars {
            return grounds.push(&front[..depth]);
        }
        for row in self.candidates(&front[..depth]) {
            let mut next = front;
            next[depth] = *row;
            let Ok(()) = self.add_from(next, depth + 1, grounds) else {
                return Err(NoMemory);
            };
        }
        Ok(())
    }

    // How many variables the rule has.
    fn vars(&self) -> usize
        ensures value { result ≡ self.now.rule.vars }
        ensures few { self.now.rule.vars ≤ 4 }
        ensures fits { IsFitting self.now.rule }
    {
        self.rule.vars as usize
    }

    // Do the predicates pass that need just the rows of these variables?
    fn passes(&self, front: &[RowId]) -> bool
        ensures { result ≡ passes_at (length front.now) self.now.rule self.now.table front.now }
    {
        self.rule.predicates.as_slice().iter().all(|predicate| needs(predicate) != front.len()
            || self.holds(predicate, front))
    }

    // Does a predicate pass, whose variables all have a row?
    fn holds(&self, predicate: &Predicate, front: &[RowId]) -> bool
        ensures { result ≡ passes self.now.table front.now predicate.now }
    {
        match predicate {
            Predicate::Order(atom) => are_two(atom, front),
            Predicate::Compare { .. } => predicate.comparison_holds(self.table, front),
        }
    }

    // The members that can be the row of the next variable.
    fn candidates(&self, front: &[RowId]) -> &[RowId]
        ensures { AreCandidates self.now.rule self.now.table self.now.members front.now result.now }
    {
        match self.lookups.get(front.len()) {
            Some(Some(lookup)) => lookup.found(front),
            _ => self.members,
        }
    }
}

// Has an order predicate two different rows?
fn are_two(atom: &OrderAtom, front: &[RowId]) -> bool
    ensures { result ≡ is_some (atom_pair front.now atom.now) }
{
    match (
        front.get(atom.earlier as usize),
        front.get(atom.later as usize),
    ) {
        (Some(earlier), Some(later)) => earlier != later,
        _ => false,
    }
}

// Of how many of the first variables a predicate needs the rows.
fn needs(predicate: &Predicate) -> usize
    ensures { result ≡ needs predicate.now }
{
    match predicate {
        Predicate::Order(atom) => (atom.earlier as usize + 1).max(atom.later as usize + 1),
        Predicate::Compare { left, right, .. } => operand_needs(left).max(operand_needs(right)),
    }
}

// Of how many of the first variables an operand needs the rows.
fn operand_needs(operand: &Operand) -> usize
    ensures { result ≡ operand_needs operand.now }
{
    match operand {
        Operand::Field { var, .. } => *var as usize + 1,
        Operand::Constant(_) => 0,
    }
}
