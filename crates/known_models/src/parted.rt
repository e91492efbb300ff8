ghost use Rattle.std.specs.Prelude.{◌≡◌, ◌<◌, ◌+◌, ◌↔◌, ◌^◌, Contains, Some, length, slice_get, IfOk};
ghost use Rattle.spec_model.specs.declared.relation.Relation.{Relation};
ghost use Rattle.order_literals.specs.Numbers.{numbers_of};
ghost use Rattle.order_literals.specs.Statements.{statements_of};
ghost use Rattle.completion_build.specs.Judged.{IsJudged};
ghost use Rattle.completion_build.specs.Places.{contest_of};
ghost use Rattle.entity_ties.specs.Labels.{AreTies, cell, label_of};
ghost use Rattle.entity_ties.specs.declared.cells.Member.{Member};
ghost use Rattle.variable_parts.specs.Parts.{AreVariableParts};
ghost use Rattle.known_models.specs.Known.{IsParted, numbers_in, variables_in, vars_in};

use completion_build::{Judged, judge_list};
use currency_base::{Assignment, AttrId, EntId, NoMemory, RelId};
use entity_ties::Member;
use order_literals::{Numbering, Wanted};
use spec_model::Specification;
use std::alloc::Global;
use std::marker::Model;
use variable_parts::VariableParts;

/// A specification, what is numbered of it, its smallest closed parts, and the variables of each.
#[derive(Drop)]
pub struct PartedSpec<'a> {
    spec: &'a Specification,
    wanted: &'a Wanted,
    numbering: &'a Numbering,
    parts: &'a VariableParts,
}

impl<'a> Model for PartedSpec<'a> {
    ghost use Rattle.known_models.specs.Known.{IsParted, PartedSpec};

    ghost Value = { PartedSpec };

    ghost view = { λ p. record {
      spec = p.spec.now;
      wanted = p.wanted.now;
      ties = p.parts.now.ties;
      parts = p.parts.now.parts;
    } };

    ghost invariant = { λ p. IsParted p.numbering.now
        (record { spec = p.spec.now; wanted = p.wanted.now; ties = p.parts.now.ties; parts = p.parts.now.parts }) };
}

impl<'a> PartedSpec<'a> {
    /// These four together, where the numbers and the parts are those of the specification.
    pub fn new(
        spec: &'a Specification,
        wanted: &'a Wanted,
        numbering: &'a Numbering,
        parts: &'a VariableParts,
    ) -> PartedSpec<'a>
        requires numbering { numbering.now ≡ numbers_of spec.now.relations wanted.now }
        requires ties { AreTies spec.now parts.now.ties }
        requires parts { AreVariableParts spec.now (statements_of numbering.now) parts.now.ties parts.now.parts }
        ensures spec { result.spec ≡ spec.now }
        ensures wanted { result.wanted ≡ wanted.now }
        ensures ties { result.ties ≡ parts.now.ties }
        ensures parts { result.parts ≡ parts.now.parts }
    {
        PartedSpec {
            spec,
            wanted,
            numbering,
            parts,
        }
    }
}

impl PartedSpec<'_> {
    /// The specification.
    pub(crate) fn spec(&self) -> &Specification
        ensures { result.now ≡ self.now.spec }
    {
        self.spec
    }

    /// A law: the parts are those of the specification, and these are the variables of each.
    pub(crate) fn facts(&self)
        ensures { IsParted (numbers_in self.now) self.now }
    {
        let _ = &self.numbering;
    }

    /// How many variables there are.
    pub(crate) fn variables(&self) -> u32
        ensures value { result ≡ length (variables_in self.now) }
    {
        self.numbering.vars()
    }

    /// How many parts there are.
    pub(crate) fn count(&self) -> usize
        ensures { result ≡ length self.now.parts }
    {
        self.parts.count()
    }

    /// The variables of a part.
    pub(crate) fn vars(&self, part: u32) -> &[u32]
        requires { part < length self.now.parts }
        ensures { result.now ≡ vars_in self.now part }
    {
        self.parts.vars(part)
    }

    /// The entities of a part.
    pub(crate) fn members(&self, part: u32) -> &[Member]
        requires { part < length self.now.parts }
        ensures { (m : Member) → Contains result.now m ↔ (label_of self.now.ties (cell m.rel.0 m.ent.0) ≡ Some part) }
    {
        self.parts.ties().members(part)
    }

    /// How many attributes a relation has.
    pub(crate) fn attrs(&self, rel: RelId) -> usize
        requires { rel.0 < length self.now.spec.relations }
        ensures value { (r : Relation) → slice_get self.now.spec.relations rel.0 ≡ Some r → result ≡ length r.attrs }
        ensures few { result + 1 < 2 ^ 32 }
    {
        self.spec.relations()[rel.0 as usize].attrs.len()
    }

    /// What truths say of a list: the order of its rows, or three of them that form a cycle.
    pub(crate) fn judge(
        &self,
        alloc: Global,
        truths: &Assignment,
        rel: RelId,
        attr: AttrId,
        ent: EntId,
    ) -> Result<Judged, NoMemory>
        requires truths { length truths.now ≡ length (variables_in self.now) }
        requires rel { rel.0 < length self.now.spec.relations }
        requires attr { (r : Relation) → slice_get self.now.spec.relations rel.0 ≡ Some r → attr.0 < length r.attrs }
        requires ent { (r : Relation) → slice_get self.now.spec.relations rel.0 ≡ Some r → ent.0 < length r.entities }
        ensures { IfOk result (λ judged. (r : Relation) → slice_get self.now.spec.relations rel.0 ≡ Some r
            → IsJudged (contest_of (numbers_in self.now) truths.now rel attr r ent.0) ent.0 judged) }
    {
        judge_list(
            alloc,
            self.spec,
            self.numbering,
            self.wanted,
            truths,
            rel,
            attr,
            ent,
        )
    }
}
