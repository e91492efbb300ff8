ghost use Rattle.std.specs.Prelude.{◌≡◌};
ghost use Rattle.spec_model.specs.Facts.{IsRelation};
ghost use Rattle.spec_names.specs.Names.{names_of};

use spec_model::Relation;
use spec_names::RelationNames;
use std::marker::Model;

/// A relation and the names of its parts. Contracts see the relation.
#[derive(Drop)]
pub struct NamedRelation {
    relation: Relation,
    names: RelationNames,
}

impl Model for NamedRelation {
    ghost use Rattle.std.specs.Prelude.{◌≡◌};
    ghost use Rattle.spec_model.specs.declared.relation.Relation.{Relation};
    ghost use Rattle.spec_model.specs.Facts.{IsRelation};
    ghost use Rattle.spec_names.specs.Names.{names_of};

    ghost Value = { Relation };

    ghost view = { λ n. n.relation };

    ghost invariant = { λ n. IsRelation n.relation × (n.names ≡ names_of n.relation) };
}

impl NamedRelation {
    /// The relation with these names of its parts.
    pub(crate) fn new(relation: Relation, names: RelationNames) -> NamedRelation
        requires facts { IsRelation relation }
        requires names { names ≡ names_of relation }
        ensures { result ≡ relation }
    {
        NamedRelation { relation, names }
    }

    /// The relation.
    pub fn relation(&self) -> &Relation
        ensures value { result.now ≡ self.now }
        ensures facts { IsRelation self.now }
    {
        &self.relation
    }

    /// The relation, and the names of its parts.
    pub fn into_parts(self) -> (Relation, RelationNames)
        ensures relation { result.0 ≡ self }
        ensures names { result.1 ≡ names_of self }
        ensures facts { IsRelation self }
    {
        (self.relation, self.names)
    }
}
