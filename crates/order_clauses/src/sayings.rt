ghost use Rattle.std.specs.Prelude.{◌≡◌, ◌<◌, ◌+◌, ◌^◌, length, slice_get, Some};
ghost use Rattle.spec_model.specs.Facts.{AreCopies, AreRelations, AreRules, IsRelation};
ghost use Rattle.order_literals.specs.Numbers.{is_wanted, numbers_of};
ghost use Rattle.order_literals.specs.Said.{Says, before, not_before};
ghost use Rattle.order_clauses.specs.Subject.{variables, IsPairIn};

use currency_base::{AttrId, CopyId, Lit, RelId, RowId, RuleId};
use order_literals::{Numbering, Wanted};
use spec_model::{CopyMap, Relation, Rule, Specification};
use std::marker::Model;

/// A specification, and the literals that say statements on it.
#[derive(Drop)]
pub(crate) struct Sayings<'a> {
    pub spec: &'a Specification,
    pub numbering: &'a Numbering,
    pub wanted: &'a Wanted,
}

impl<'a> Model for Sayings<'a> {
    ghost use Rattle.std.specs.Prelude.{◌≡◌};
    ghost use Rattle.order_literals.specs.Numbers.{numbers_of};
    ghost use Rattle.order_clauses.specs.Subject.{Subject};

    ghost Value = { Subject };

    ghost view = { λ s. record { spec = s.spec.now; wanted = s.wanted.now } };

    ghost invariant = { λ s. s.numbering.now ≡ numbers_of s.spec.now.relations s.wanted.now };
}

impl Sayings<'_> {
    /// A law: what every specification keeps.
    pub(crate) fn facts(&self)
        ensures relations { AreRelations self.now.spec.relations }
        ensures rules { AreRules self.now.spec.relations self.now.spec.rules }
        ensures copies { AreCopies self.now.spec.relations self.now.spec.copies }
    {
        let _ = self.spec.relations().len();
        let _ = self.spec.rules().len();
        let _ = self.spec.copies().len();
    }

    /// How many relations there are.
    pub(crate) fn relations(&self) -> usize
        ensures value { result ≡ length self.now.spec.relations }
        ensures few { result + 1 < 2 ^ 32 }
    {
        self.spec.relations().len()
    }

    /// The relation of an id.
    pub(crate) fn relation(&self, rel: RelId) -> &Relation
        requires { rel.0 < length self.now.spec.relations }
        ensures value { slice_get self.now.spec.relations rel.0 ≡ Some result.now }
        ensures facts { IsRelation result.now }
    {
        &self.spec.relations()[rel.0 as usize]
    }

    /// How many rules there are.
    pub(crate) fn rules(&self) -> usize
        ensures value { result ≡ length self.now.spec.rules }
        ensures facts { AreRules self.now.spec.relations self.now.spec.rules }
        ensures few { result + 1 < 2 ^ 32 }
    {
        self.spec.rules().len()
    }

    /// The rule of an id.
    pub(crate) fn rule(&self, rule: RuleId) -> &Rule
        requires { rule.0 < length self.now.spec.rules }
        ensures { slice_get self.now.spec.rules rule.0 ≡ Some result.now }
    {
        &self.spec.rules()[rule.0 as usize]
    }

    /// How many copy functions there are.
    pub(crate) fn copies(&self) -> usize
        ensures value { result ≡ length self.now.spec.copies }
        ensures facts { AreCopies self.now.spec.relations self.now.spec.copies }
        ensures few { result + 1 < 2 ^ 32 }
    {
        self.spec.copies().len()
    }

    /// The copy function of an id.
    pub(crate) fn copy(&self, copy: CopyId) -> &CopyMap
        requires { copy.0 < length self.now.spec.copies }
        ensures { slice_get self.now.spec.copies copy.0 ≡ Some result.now }
    {
        &self.spec.copies()[copy.0 as usize]
    }

    /// The numbers of what can be said.
    pub(crate) fn numbering(&self) -> &Numbering
        ensures { result.now ≡ numbers_of self.now.spec.relations self.now.wanted }
    {
        self.numbering
    }

    /// Are the current values of a relation wanted?
    pub(crate) fn is_wanted(&self, rel: RelId) -> bool
        requires { rel.0 < length self.now.spec.relations }
        ensures { result ≡ is_wanted self.now.wanted.currents rel.0 }
    {
        self.numbering.is_wanted(rel)
    }

    /// The literal that says that one row stands before another.
    pub(crate) fn before(&self, rel: RelId, attr: AttrId, earlier: RowId, later: RowId) -> Lit
        requires { IsPairIn self.now.spec rel attr earlier later }
        ensures { Says (variables self.now) result (before rel attr earlier later) }
    {
        self.numbering.before(rel, attr, earlier, later)
    }

    /// The literal that says that one row does not stand before another.
    pub(crate) fn not_before(&self, rel: RelId, attr: AttrId, earlier: RowId, later: RowId) -> Lit
        requires { IsPairIn self.now.spec rel attr earlier later }
        ensures { Says (variables self.now) result (not_before rel attr earlier later) }
    {
        self.before(rel, attr, earlier, later).negated()
    }
}
