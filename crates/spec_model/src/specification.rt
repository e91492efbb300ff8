ghost use Rattle.std.specs.Prelude.{◌≡◌, ◌<◌, ◌∷◌, ◌++◌, ℕ, false, List, [], None, Some, length, slice_get, IfSome, IfErr, OnOk, OnErr};
ghost use Rattle.std.specs.List.{remove};
ghost use Rattle.currency_base.specs.declared.pair.Pair.{Pair};
ghost use Rattle.copy_functions.specs.Copies.{source_at};
ghost use Rattle.copy_functions.specs.Faults.{IsDue};
ghost use Rattle.denial_rules.specs.declared.rule.Rule.{Rule};
ghost use Rattle.partial_orders.specs.Pairs.{has_pair};
ghost use Rattle.spec_model.specs.declared.relation.Relation.{Relation};
ghost use Rattle.spec_model.specs.Facts.{AreRelations, AreRules, AreCopies, IsSpecification, IsGivenPair};
ghost use Rattle.spec_model.specs.Facts.{AddsGiven, TakesGiven, MapsCopied, UnmapsCopied, rows_of, copied_due};

use crate::Relation;
use copy_functions::{CopyFault, CopyMap};
use currency_base::{CopyId, NoMemory, Pair, RelId, RowId, RuleId};
use denial_rules::Rule;
use std::alloc::Global;
use std::marker::Model;

/// A specification: relations with their tables and given pairs, rules on them, and copy functions
/// between them. Contracts see the lists of these.
#[derive(Drop)]
pub struct Specification {
    relations: Vec<Relation>,
    rules: Vec<Rule>,
    copies: Vec<CopyMap>,
}

impl Model for Specification {
    ghost use Rattle.spec_model.specs.Spec.{Spec};
    ghost use Rattle.spec_model.specs.Facts.{IsSpecification};

    ghost Value = { Spec };

    ghost view = { λ s. record { relations = s.relations.items; rules = s.rules.items; copies = s.copies.items } };

    ghost invariant = { λ s. IsSpecification
        (record { relations = s.relations.items; rules = s.rules.items; copies = s.copies.items }) };
}

impl Specification {
    /// A specification with no relation, no rule and no copy function.
    pub fn new(alloc: Global) -> Specification
        ensures { result ≡ record { relations = []; rules = []; copies = [] } }
    {
        Specification {
            relations: Vec::new(alloc),
            rules: Vec::new(alloc),
            copies: Vec::new(alloc),
        }
    }

    /// The relations, in the order of declaration.
    pub fn relations(&self) -> &[Relation]
        ensures value { result.now ≡ self.now.relations }
        ensures facts { AreRelations self.now.relations }
    {
        self.relations.as_slice()
    }

    /// The rules, in the order of declaration.
    pub fn rules(&self) -> &[Rule]
        ensures value { result.now ≡ self.now.rules }
        ensures facts { AreRules self.now.relations self.now.rules }
    {
        self.rules.as_slice()
    }

    /// The copy functions, in the order of declaration.
    pub fn copies(&self) -> &[CopyMap]
        ensures value { result.now ≡ self.now.copies }
        ensures facts { AreCopies self.now.relations self.now.copies }
    {
        self.copies.as_slice()
    }

    /// Adds a relation after the others. A refusal changes nothing.
    pub fn add_relation(&mut self, relation: Relation) -> Result<(), NoMemory>
        requires { AreRelations (self.old.relations ++ relation ∷ []) }
        ensures ok { OnOk result (self.new ≡ record self.old { relations = self.old.relations ++ relation ∷ [] }) }
        ensures err { OnErr result (self.new ≡ self.old) }
    {
        match self.relations.push(relation) {
            Ok(()) => Ok(()),
            Err(_) => Err(NoMemory),
        }
    }

    /// Adds a given pair to a relation. One that is there already changes nothing, and so does a refusal.
    pub fn add_given(&mut self, rel: RelId, pair: Pair) -> Result<(), NoMemory>
        requires fits { IfSome (slice_get self.old.relations rel.0) (λ r. IsGivenPair r pair) }
        requires within { rel.0 < length self.old.relations }
        ensures ok { OnOk result (AddsGiven self.old.relations self.new.relations rel.0 pair) }
        ensures rules { self.new.rules ≡ self.old.rules }
        ensures copies { self.new.copies ≡ self.old.copies }
        ensures err { OnErr result (self.new ≡ self.old) }
    {
        let relation = &mut self.relations[rel.0 as usize];
        match relation.given.add(&relation.rows, pair) {
            Ok(()) => Ok(()),
            Err(_) => Err(NoMemory),
        }
    }

    /// Adds a rule after the others. A refusal changes nothing.
    pub fn add_rule(&mut self, rule: Rule) -> Result<(), NoMemory>
        requires { AreRules self.old.relations (self.old.rules ++ rule ∷ []) }
        ensures ok { OnOk result (self.new ≡ record self.old { rules = self.old.rules ++ rule ∷ [] }) }
        ensures err { OnErr result (self.new ≡ self.old) }
    {
        match self.rules.push(rule) {
            Ok(()) => Ok(()),
            Err(_) => Err(NoMemory),
        }
    }

    /// Adds a copy function after the others. A refusal changes nothing.
    pub fn add_copy(&mut self, copy: CopyMap) -> Result<(), NoMemory>
        requires { AreCopies self.old.relations (self.old.copies ++ copy ∷ []) }
        ensures ok { OnOk result (self.new ≡ record self.old { copies = self.old.copies ++ copy ∷ [] }) }
        ensures err { OnErr result (self.new ≡ self.old) }
    {
        match self.copies.push(copy) {
            Ok(()) => Ok(()),
            Err(_) => Err(NoMemory),
        }
    }

    /// Takes a given pair out of a relation, and says whether it was there. Takes no memory.
    pub fn withdraw_given(&mut self, rel: RelId, pair: Pair) -> bool
        requires { rel.0 < length self.old.relations }
        ensures value { TakesGiven self.old.relations self.new.relations rel.0 pair }
        ensures rules { self.new.rules ≡ self.old.rules }
        ensures copies { self.new.copies ≡ self.old.copies }
        ensures was { IfSome (slice_get self.old.relations rel.0) (λ r. result ≡ has_pair r.given pair) }
    {
        let relation = &mut self.relations[rel.0 as usize];
        relation.given.remove(pair)
    }

    /// Takes a rule out, and gives it back. Each rule after it has the place before its own from then on.
    /// Takes no memory.
    pub fn withdraw_rule(&mut self, rule: RuleId) -> Rule
        requires { rule.0 < length self.old.rules }
        ensures value { self.new ≡ record self.old { rules = remove self.old.rules rule.0 } }
        ensures was { slice_get self.old.rules rule.0 ≡ Some result }
    {
        self.rules.remove(rule.0 as usize)
    }

    /// The fault of `map_copied`, if it has one.
    pub fn check_copied(
        &self,
        alloc: Global,
        copy: CopyId,
        target: RowId,
        source: RowId,
    ) -> Result<(), CopyFault>
        requires within { copy.0 < length self.now.copies }
        requires target_row { IfSome (slice_get self.now.copies copy.0)
            (λ c. target.0 < length (rows_of self.now.relations c.target)) }
        requires source_row { IfSome (slice_get self.now.copies copy.0)
            (λ c. source.0 < length (rows_of self.now.relations c.source)) }
        ensures faultless { OnOk result (copied_due self.now copy.0 target source ≡ None) }
        ensures due { IfErr result (IsDue (copied_due self.now copy.0 target source)) }
    {
        let map = &self.copies[copy.0 as usize];
        let target_rows = &self.relations[map.target().0 as usize].rows;
        let source_rows = &self.relations[map.source().0 as usize].rows;
        map.check(alloc, target_rows, source_rows, target, source)
    }

    /// Maps one more row of the target relation of a copy function to a row of its source relation, as
    /// `CopyMap::add` does. A refusal changes nothing.
    pub fn map_copied(
        &mut self,
        alloc: Global,
        copy: CopyId,
        target: RowId,
        source: RowId,
    ) -> Result<(), CopyFault>
        requires within { copy.0 < length self.old.copies }
        requires target_row { IfSome (slice_get self.old.copies copy.0)
            (λ c. target.0 < length (rows_of self.old.relations c.target)) }
        requires source_row { IfSome (slice_get self.old.copies copy.0)
            (λ c. source.0 < length (rows_of self.old.relations c.source)) }
        ensures ok { OnOk result (MapsCopied self.old.copies self.new.copies copy.0 target source) }
        ensures relations { self.new.relations ≡ self.old.relations }
        ensures rules { self.new.rules ≡ self.old.rules }
        ensures faultless { OnOk result (copied_due self.old copy.0 target source ≡ None) }
        ensures due { IfErr result (IsDue (copied_due self.old copy.0 target source)) }
        ensures err { OnErr result (self.new ≡ self.old) }
    {
        let map = &mut self.copies[copy.0 as usize];
        let target_rows = &self.relations[map.target().0 as usize].rows;
        let source_rows = &self.relations[map.source().0 as usize].rows;
        map.add(alloc, target_rows, source_rows, target, source)
    }

    /// Unmaps a row of the target relation of a copy function, and answers the source row that it was
    /// mapped to, if it was mapped. Takes no memory.
    pub fn withdraw_copied(&mut self, copy: CopyId, target: RowId) -> Option<RowId>
        requires { copy.0 < length self.old.copies }
        ensures value { UnmapsCopied self.old.copies self.new.copies copy.0 target }
        ensures relations { self.new.relations ≡ self.old.relations }
        ensures rules { self.new.rules ≡ self.old.rules }
        ensures was { IfSome (slice_get self.old.copies copy.0) (λ c. result ≡ source_at c target) }
    {
        let map = &mut self.copies[copy.0 as usize];
        map.remove(target)
    }
}

/// A law: where a given pair that was not there is added and withdrawn again, the relations are as they
/// were, and so are the rules where one is added and withdrawn again.
pub fn edits_are_undone()
    ensures given { (before added after : List Relation) (rel : ℕ) (r : Relation) (pair : Pair) → slice_get before rel ≡ Some r
        → has_pair r.given pair ≡ false → AddsGiven before added rel pair → TakesGiven added after rel pair → after ≡ before }
    ensures rule { (rules : List Rule) (rule : Rule) → remove (rules ++ rule ∷ []) (length rules) ≡ rules }
{}
