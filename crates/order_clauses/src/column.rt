ghost use Rattle.std.specs.Prelude.{◌≡◌, ◌<◌, length};
ghost use Rattle.value_names.specs.Names.{name_of};
ghost use Rattle.order_literals.specs.Axioms.{AreTwo};
ghost use Rattle.order_literals.specs.Said.{Says, before, not_before, top, not_top, last, not_last};
ghost use Rattle.order_clauses.specs.Listing.{members_of};
ghost use Rattle.order_clauses.specs.Subject.{variables, IsAttribute, IsWantedRow};

use crate::sayings::Sayings;
use currency_base::{AttrId, EntId, Lit, RelId, RowId};
use spec_model::Relation;
use std::marker::Model;

/// An attribute of a relation, and the literals that say statements on it.
#[derive(Drop)]
pub(crate) struct Column<'a> {
    pub sayings: &'a Sayings<'a>,
    pub relation: &'a Relation,
    pub rel: RelId,
    pub attr: AttrId,
}

impl<'a> Model for Column<'a> {
    ghost use Rattle.order_clauses.specs.Subject.{Attribute, IsAttribute};

    ghost Value = { Attribute };

    ghost view = { λ c. record { subject = c.sayings.now; relation = c.relation.now; rel = c.rel; attr = c.attr } };

    ghost invariant = { λ c. IsAttribute
        (record { subject = c.sayings.now; relation = c.relation.now; rel = c.rel; attr = c.attr }) };
}

impl Column<'_> {
    /// A law: it is an attribute of a relation of the specification.
    pub(crate) fn facts(&self)
        ensures { IsAttribute self.now }
    {
        let _rel = self.rel;
    }

    /// The specification and the literals.
    pub(crate) fn sayings(&self) -> &Sayings<'_>
        ensures { result.now ≡ self.now.subject }
    {
        self.sayings
    }

    /// The relation's id.
    pub(crate) fn rel(&self) -> RelId
        ensures { result ≡ self.now.rel }
    {
        self.rel
    }

    /// The attribute's id.
    pub(crate) fn attr(&self) -> AttrId
        ensures { result ≡ self.now.attr }
    {
        self.attr
    }

    /// The rows of an entity.
    pub(crate) fn members(&self, ent: EntId) -> &[RowId]
        requires { ent.0 < length self.now.relation.entities }
        ensures { result.now ≡ members_of self.now.relation ent.0 }
    {
        self.sayings.numbering().lists(self.rel).of_entity(ent)
    }

    /// The literal that says that of two rows of one entity the first stands before the second.
    pub(crate) fn before(&self, earlier: RowId, later: RowId) -> Lit
        requires { AreTwo self.now.relation.rows earlier later }
        ensures { Says (variables self.now.subject) result (before self.now.rel self.now.attr earlier later) }
    {
        self.sayings.before(self.rel, self.attr, earlier, later)
    }

    /// The literal that says that it does not.
    pub(crate) fn not_before(&self, earlier: RowId, later: RowId) -> Lit
        requires { AreTwo self.now.relation.rows earlier later }
        ensures { Says (variables self.now.subject) result (not_before self.now.rel self.now.attr earlier later) }
    {
        self.before(earlier, later).negated()
    }

    /// The literal that says that a row stands last.
    pub(crate) fn top(&self, row: RowId) -> Lit
        requires { IsWantedRow self.now row }
        ensures { Says (variables self.now.subject) result (top self.now.rel self.now.attr row) }
    {
        self.sayings.numbering().top(self.rel, self.attr, row)
    }

    /// The literal that says that it does not.
    pub(crate) fn not_top(&self, row: RowId) -> Lit
        requires { IsWantedRow self.now row }
        ensures { Says (variables self.now.subject) result (not_top self.now.rel self.now.attr row) }
    {
        self.top(row).negated()
    }

    /// The row that names the value of a row.
    pub(crate) fn name(&self, row: RowId) -> RowId
        requires { IsWantedRow self.now row }
        ensures { result ≡ name_of self.now.relation.rows self.now.attr.0 row }
    {
        self.sayings.numbering().name(self.rel, self.attr, row)
    }

    /// The literal that says that the value which a row names is current.
    pub(crate) fn last(&self, row: RowId) -> Lit
        requires row { IsWantedRow self.now row }
        requires named { name_of self.now.relation.rows self.now.attr.0 row ≡ row }
        ensures { Says (variables self.now.subject) result (last self.now.rel self.now.attr row) }
    {
        self.sayings.numbering().last(self.rel, self.attr, row)
    }

    /// The literal that says that it is not.
    pub(crate) fn not_last(&self, row: RowId) -> Lit
        requires row { IsWantedRow self.now row }
        requires named { name_of self.now.relation.rows self.now.attr.0 row ≡ row }
        ensures { Says (variables self.now.subject) result (not_last self.now.rel self.now.attr row) }
    {
        self.last(row).negated()
    }
}
