ghost use Rattle.std.specs.Prelude.{◌≡◌, ◌<◌, Some, length, slice_get, IfOk};
ghost use Rattle.order_literals.specs.Numbers.{numbers_of};
ghost use Rattle.order_literals.specs.Statements.{statements_of};
ghost use Rattle.entity_ties.specs.Labels.{AreTies, cell, label_of, labels_in};
ghost use Rattle.variable_parts.specs.Parts.{AreVariableParts};

use crate::keys::statement_keys;
use crate::sorting::places_by_key;
use crate::source::Source;
use currency_base::{EntId, NoMemory, RelId};
use entity_ties::Ties;
use flat_lists::FlatLists;
use order_literals::{Numbering, Wanted};
use spec_model::Specification;
use std::alloc::Global;
use std::marker::Model;

/// The smallest closed parts of a specification, and the variables of each: a variable is of the part of the entity that its
/// statement is about, and a variable on an answer is of none. Contracts see the parts, and the list of variables of each.
/// Beside the parts a variable takes four bytes, and a part four.
#[derive(Drop)]
pub struct VariableParts {
    ties: Ties,
    // by part, its variables
    vars: FlatLists<u32>,
}

impl Model for VariableParts {
    ghost use Rattle.std.specs.Prelude.{◌≡◌, length};
    ghost use Rattle.variable_parts.specs.Parts.{Parted};

    ghost Value = { Parted };

    ghost view = { λ p. record { ties = p.ties; parts = p.vars } };

    ghost invariant = { λ p. length p.vars ≡ p.ties.count };
}

impl VariableParts {
    /// Finds the variables of each part, ascending, where these statements on a specification are numbered and these are its
    /// parts. Takes time in proportion to the variables, the parts, and the rows in each attribute; of a variable it takes
    /// constant time and no search. It is refused for want of memory, which also comes where there are 2^32 parts or more.
    pub fn new(
        alloc: Global,
        spec: &Specification,
        numbering: &Numbering,
        wanted: &Wanted,
        ties: Ties,
    ) -> Result<VariableParts, NoMemory>
        requires numbering { numbering.now ≡ numbers_of spec.now.relations wanted.now }
        requires ties { AreTies spec.now ties }
        ensures ties { IfOk result (λ p. p.ties ≡ ties) }
        ensures parts { IfOk result (λ p. AreVariableParts spec.now (statements_of numbering.now) ties p.parts) }
    {
        let vars = vars_by_part(alloc, spec, numbering, wanted, &ties)?;
        Ok(VariableParts { ties, vars })
    }

    /// How many parts there are.
    pub fn count(&self) -> usize
        ensures value { result ≡ length self.now.parts }
        ensures ties { result ≡ self.now.ties.count }
    {
        self.vars.len()
    }

    /// The variables of a part, ascending.
    pub fn vars(&self, part: u32) -> &[u32]
        requires { part < length self.now.parts }
        ensures { slice_get self.now.parts part ≡ Some result.now }
    {
        self.vars.get(part as usize)
    }

    /// The part of an entity.
    pub fn part_of(&self, rel: RelId, ent: EntId) -> u32
        requires rel { rel.0 < length self.now.ties.labels }
        requires ent { ent.0 < length (labels_in self.now.ties rel.0) }
        ensures { label_of self.now.ties (cell rel.0 ent.0) ≡ Some result }
    {
        self.ties.part_of(rel, ent)
    }

    /// The parts, without their variables.
    pub fn ties(&self) -> &Ties
        ensures { result.now ≡ self.now.ties }
    {
        &self.ties
    }
}

// The variables of each part.
fn vars_by_part(
    alloc: Global,
    spec: &Specification,
    numbering: &Numbering,
    wanted: &Wanted,
    ties: &Ties,
) -> Result<FlatLists<u32>, NoMemory>
    requires numbering { numbering.now ≡ numbers_of spec.now.relations wanted.now }
    requires ties { AreTies spec.now ties.now }
    ensures { IfOk result (AreVariableParts spec.now (statements_of numbering.now) ties.now) }
{
    let count = ties.count();
    if count >= u32::MAX as usize {
        return Err(NoMemory);
    }
    let count = count as u32;
    let source = Source {
        spec,
        wanted,
        numbering,
        ties,
        count,
    };
    let keys = statement_keys(alloc, &source)?;
    places_by_key(alloc, &keys, count)
}
