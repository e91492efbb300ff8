ghost use Rattle.std.specs.Prelude.{◌≡◌, ◌<◌, length, Some, slice_get};
ghost use Rattle.spec_model.specs.Facts.{IsRelation, AreRelations};
ghost use Rattle.spec_model.specs.declared.relation.Relation.{Relation};
ghost use Rattle.completion_build.specs.Places.{contest_of};

use crate::tournament::Tournament;
use currency_base::{Assignment, AttrId, EntId, RelId};
use order_literals::Numbering;
use spec_model::{Relation, Specification};
use std::marker::Model;

/// A specification, the numbers of its pairs of rows, and an assignment of these.
#[derive(Drop)]
pub(crate) struct Source<'a> {
    pub spec: &'a Specification,
    pub numbering: &'a Numbering,
    pub assignment: &'a Assignment,
}

impl<'a> Model for Source<'a> {
    ghost use Rattle.completion_build.specs.Sources.{Source, IsSource};

    ghost Value = { Source };

    ghost view = { λ s. record { relations = s.spec.now.relations; numbers = s.numbering.now; truths = s.assignment.now } };

    ghost invariant = { λ s. IsSource (record {
      relations = s.spec.now.relations;
      numbers = s.numbering.now;
      truths =
          s.assignment.now;
    }) };
}

impl Source<'_> {
    /// The relations of the specification.
    pub(crate) fn relations(&self) -> &[Relation]
        ensures value { result.now ≡ self.now.relations }
        ensures facts { AreRelations self.now.relations }
    {
        self.spec.relations()
    }

    /// A relation of the specification.
    pub(crate) fn relation(&self, rel: RelId) -> &Relation
        requires { rel.0 < length self.now.relations }
        ensures value { slice_get self.now.relations rel.0 ≡ Some result.now }
        ensures facts { IsRelation result.now }
    {
        &self.relations()[rel.0 as usize]
    }

    /// The rows of an entity, in an attribute.
    pub(crate) fn tournament(&self, rel: RelId, attr: AttrId, ent: EntId) -> Tournament<'_>
        requires rel { rel.0 < length self.now.relations }
        requires attr { (r : Relation) → slice_get self.now.relations rel.0 ≡ Some r → attr.0 < length r.attrs }
        requires ent { (r : Relation) → slice_get self.now.relations rel.0 ≡ Some r → ent.0 < length r.entities }
        ensures { (r : Relation) → slice_get self.now.relations rel.0 ≡ Some r → result ≡ contest_of self.now.numbers
            self.now.truths rel attr r ent.0 }
    {
        Tournament::new(self.numbering, self.assignment, rel, attr, ent)
    }
}
