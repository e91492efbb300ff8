ghost use Rattle.std.specs.Prelude.{◌≡◌, ◌<◌, ◌∷◌, ◌++◌, [], length, map, slice_get, Some, Contains, IfOk, OnOk, OnErr};
ghost use Rattle.currency_base.specs.Lists.{OnlyOnce};
ghost use Rattle.spec_names.specs.Names.{names_of, all_names_of};

use crate::named::index_of;
use currency_base::{Name, NoMemory};
use name_index::NameIndex;
use spec_model::{Relation, Rule, Specification};
use std::alloc::Global;
use std::marker::Model;

/// The names of a relation's parts; the place of a name is the id of its part.
#[derive(Drop)]
pub struct RelationNames {
    pub attrs: NameIndex,
    pub rows: NameIndex,
    pub entities: NameIndex,
}

/// The names of a specification's relations, of the parts of each, of its rules and of its copy
/// functions; the place of a name is the id of what it names.
#[derive(Drop)]
pub struct SpecNames {
    relations: NameIndex,
    each: Vec<RelationNames>,
    rules: NameIndex,
    copies: NameIndex,
}

impl Model for SpecNames {
    ghost use Rattle.spec_names.specs.NameLists.{NameLists};

    ghost Value = { NameLists };

    ghost view = { λ n. record { relations = n.relations; each = n.each.items; rules = n.rules; copies = n.copies } };
}

impl RelationNames {
    /// The names of a relation's parts, copied. Of attributes, rows and entities, no two have one name.
    pub fn of(alloc: Global, relation: &Relation) -> Result<RelationNames, NoMemory>
        requires attrs { OnlyOnce (map (λ a. a.name) relation.now.attrs) }
        requires rows { OnlyOnce (map (λ row. row.name) relation.now.rows) }
        requires entities { OnlyOnce relation.now.entities }
        ensures { IfOk result (λ names. names ≡ names_of relation.now) }
    {
        let attrs = index_of(alloc, relation.attrs.as_slice())?;
        let rows = index_of(alloc, relation.rows.as_slice())?;
        let entities = index_of(alloc, relation.entities.as_slice())?;
        Ok(RelationNames {
            attrs,
            rows,
            entities,
        })
    }
}

impl SpecNames {
    /// No names.
    pub fn new(alloc: Global) -> SpecNames
        ensures { result ≡ record { relations = []; each = []; rules = []; copies = [] } }
    {
        SpecNames {
            relations: NameIndex::new(alloc),
            each: Vec::new(alloc),
            rules: NameIndex::new(alloc),
            copies: NameIndex::new(alloc),
        }
    }

    /// The names of a specification and its parts, copied.
    pub fn of(alloc: Global, spec: &Specification) -> Result<SpecNames, NoMemory>
        ensures { IfOk result (λ names. names ≡ all_names_of spec.now) }
    {
        let relations = index_of(alloc, spec.relations())?;
        let mut each = Vec::new(alloc);
        for relation in spec.relations() {
            each.push(RelationNames::of(alloc, relation)?)?;
        }
        let rules = index_of(alloc, spec.rules())?;
        let copies = index_of(alloc, spec.copies())?;
        Ok(SpecNames {
            relations,
            each,
            rules,
            copies,
        })
    }

    /// Adds a relation after the others. After a refusal the names are of no more use.
    pub fn add(&mut self, name: Name, parts: RelationNames) -> Result<(), NoMemory>
        requires { Contains self.old.relations name → ⊥ }
        ensures relations { OnOk result (self.new.relations ≡ self.old.relations ++ name ∷ []) }
        ensures each { OnOk result (self.new.each ≡ self.old.each ++ parts ∷ []) }
        ensures rules { self.new.rules ≡ self.old.rules }
        ensures copies { self.new.copies ≡ self.old.copies }
    {
        let _ = self.relations.add(name)?;
        self.each.push(parts)?;
        Ok(())
    }

    /// Adds a rule after the others. A refusal changes nothing.
    pub fn add_rule(&mut self, name: Name) -> Result<(), NoMemory>
        requires { Contains self.old.rules name → ⊥ }
        ensures ok { OnOk result (self.new ≡ record self.old { rules = self.old.rules ++ name ∷ [] }) }
        ensures err { OnErr result (self.new ≡ self.old) }
    {
        let _ = self.rules.add(name)?;
        Ok(())
    }

    /// Adds a copy function after the others. A refusal changes nothing.
    pub fn add_copy(&mut self, name: Name) -> Result<(), NoMemory>
        requires { Contains self.old.copies name → ⊥ }
        ensures ok { OnOk result (self.new ≡ record self.old { copies = self.old.copies ++ name ∷ [] }) }
        ensures err { OnErr result (self.new ≡ self.old) }
    {
        let _ = self.copies.add(name)?;
        Ok(())
    }

    /// Puts the names of these rules, copied, in the place of those that are there. A refusal changes nothing.
    pub fn replace_rules(&mut self, alloc: Global, rules: &[Rule]) -> Result<(), NoMemory>
        requires { OnlyOnce (map (λ rule. rule.name) rules.now) }
        ensures ok { OnOk result (self.new ≡ record self.old { rules = map (λ rule. rule.name) rules.now }) }
        ensures err { OnErr result (self.new ≡ self.old) }
    {
        self.rules = index_of(alloc, rules)?;
        Ok(())
    }

    /// The names of the relations.
    pub fn relations(&self) -> &NameIndex
        ensures { result.now ≡ self.now.relations }
    {
        &self.relations
    }

    /// The names of the rules.
    pub fn rules(&self) -> &NameIndex
        ensures { result.now ≡ self.now.rules }
    {
        &self.rules
    }

    /// The names of the copy functions.
    pub fn copies(&self) -> &NameIndex
        ensures { result.now ≡ self.now.copies }
    {
        &self.copies
    }

    /// The names of the parts of the relation at a place.
    pub fn relation(&self, place: usize) -> &RelationNames
        requires { place < length self.now.each }
        ensures { slice_get self.now.each place ≡ Some result.now }
    {
        &self.each[place]
    }
}
