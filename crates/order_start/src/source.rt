ghost use Rattle.std.specs.Prelude.{◌≡◌, ◌<◌, length, Some, slice_get, true};
ghost use Rattle.spec_model.specs.Facts.{IsRelation, AreRelations};
ghost use Rattle.spec_model.specs.declared.relation.Relation.{Relation};
ghost use Rattle.entity_lists.specs.Lists.{entities_of, rows_of};
ghost use Rattle.order_literals.specs.Numbers.{is_wanted};
ghost use Rattle.order_literals.specs.Statements.{statements_of};

use crate::listed::Listed;
use crate::ranking::make_true;
use currency_base::{Assignment, AttrId, EntId, RelId, RowId};
use order_literals::{Numbering, Wanted, one_literal};
use search_trail::Values;
use spec_model::{Relation, Specification};
use std::marker::Model;

/// A specification, what is wanted and numbered of it, the values that are known, and whether lists are turned.
#[derive(Drop)]
pub(crate) struct Source<'a> {
    pub spec: &'a Specification,
    pub wanted: &'a Wanted,
    pub numbering: &'a Numbering,
    pub known: &'a Values,
    pub turned: bool,
}

impl<'a> Model for Source<'a> {
    ghost use Rattle.order_start.specs.Lists.{Subject, IsSubject};

    ghost Value = { Subject };

    ghost view = { λ s. record {
      relations = s.spec.now.relations;
      wanted = s.wanted.now;
      numbers = s.numbering.now;
      known = s.known.now.given;
    } };

    ghost invariant = { λ s. IsSubject (record {
      relations = s.spec.now.relations;
      wanted = s.wanted.now;
      numbers =
          s.numbering.now;
      known = s.known.now.given;
    }) };
}

impl Source<'_> {
    /// The relations of the specification.
    pub(crate) fn relations(&self) -> &[Relation]
        ensures value { result.now ≡ self.now.relations }
        ensures facts { AreRelations self.now.relations }
    {
        self.spec.relations()
    }

    /// A relation of the specification.
    pub(crate) fn relation(&self, rel: RelId) -> &Relation
        requires { rel.0 < length self.now.relations }
        ensures value { slice_get self.now.relations rel.0 ≡ Some result.now }
        ensures facts { IsRelation result.now }
    {
        &self.relations()[rel.0 as usize]
    }

    /// The rows of an entity, in an attribute, turned where lists are.
    pub(crate) fn list(&self, rel: RelId, attr: AttrId, ent: EntId) -> Listed<'_>
        requires rel { rel.0 < length self.now.relations }
        requires attr { (r : Relation) → slice_get self.now.relations rel.0 ≡ Some r → attr.0 < length r.attrs }
        requires ent { (r : Relation) → slice_get self.now.relations rel.0 ≡ Some r → ent.0 < length r.entities }
        ensures numbers { result.numbers ≡ self.now.numbers }
        ensures rows { (r : Relation) → slice_get self.now.relations rel.0 ≡ Some r → result.rows ≡ rows_of
            (entities_of r.rows) ent.0 }
    {
        let rows = self.numbering.lists(rel).of_entity(ent);
        Listed {
            numbering: self.numbering,
            known: self.known,
            rel,
            attr,
            rows,
            turned: self.turned,
        }
    }

    /// Are the current values of a relation wanted?
    pub(crate) fn is_wanted(&self, rel: RelId) -> bool
        requires { rel.0 < length self.now.relations }
        ensures { result ≡ is_wanted self.now.wanted.currents rel.0 }
    {
        self.numbering.is_wanted(rel)
    }

    /// Lets a row of a wanted relation stand last, and its value be current.
    pub(crate) fn put_last(&self, rel: RelId, attr: AttrId, row: RowId, guess: &mut Assignment)
        requires rel { rel.0 < length self.now.relations }
        requires attr { (r : Relation) → slice_get self.now.relations rel.0 ≡ Some r → attr.0 < length r.attrs }
        requires row { (r : Relation) → slice_get self.now.relations rel.0 ≡ Some r → row.0 < length r.rows }
        requires wanted { is_wanted self.now.wanted.currents rel.0 ≡ true }
        requires truths { length guess.old ≡ length (statements_of self.now.numbers) }
        ensures { length guess.new ≡ length guess.old }
    {
        one_literal();
        let _relation = self.relation(rel);
        let name = self.numbering.name(rel, attr, row);
        make_true(guess, self.numbering.top(rel, attr, row));
        make_true(guess, self.numbering.last(rel, attr, name));
    }
}
