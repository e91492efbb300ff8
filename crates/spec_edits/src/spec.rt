ghost use Rattle.std.specs.Prelude.{◌≡◌, Ok, None, IfErr, IfOk, OnErr, OnOk};
ghost use Rattle.spec_limits.specs.Instances.{too_many_instances};
ghost use Rattle.spec_limits.specs.Limits.{exceeded, too_many_variables};
ghost use Rattle.spec_edits.specs.Counted.{IsCounted};
ghost use Rattle.spec_edits.specs.Edits.{IsDueOf, IsEditOf, IsRefused, IsWithdrawal, edited};

use crate::given::{add_given, withdraw_given};
use crate::mapped::{map_copied, unmap_copied};
use crate::rules::{add_rule, withdraw_rule};
use crate::{Edit, EditFault};
use currency_base::NoMemory;
use spec_limits::{EntityLists, entity_lists, left_by_all};
use spec_model::Specification;
use std::alloc::Global;
use std::marker::Model;

/// A specification within its limits that is edited in place. Contracts see the specification.
#[derive(Drop)]
pub struct EditedSpec {
    spec: Specification,
    // The rows of each entity, relation by relation; no edit changes them.
    lists: EntityLists,
    // What the instances leave of their bound.
    left: u32,
}

impl Model for EditedSpec {
    ghost use Rattle.spec_model.specs.Spec.{Spec};
    ghost use Rattle.spec_edits.specs.Counted.{IsCounted};

    ghost Value = { Spec };

    ghost view = { λ e. e.spec };

    ghost invariant = { λ e. IsCounted e.spec e.lists e.left };
}

impl EditedSpec {
    /// The specification, to be edited. Takes time in proportion to its rows for each rule, and at most 64 times that for
    /// each copy function.
    pub fn new(alloc: Global, spec: Specification) -> Result<EditedSpec, NoMemory>
        requires parts { exceeded spec ≡ None }
        requires variables { too_many_variables spec ≡ None }
        requires instances { too_many_instances spec ≡ None }
        ensures { IfOk result (λ e. e ≡ spec) }
    {
        let Counts { lists, left } = counted(alloc, &spec)?;
        Ok(EditedSpec { spec, lists, left })
    }

    /// The specification as it is now, which is within its limits. Takes no memory.
    pub fn spec(&self) -> &Specification
        ensures value { result.now ≡ self.now }
        ensures parts { exceeded self.now ≡ None }
        ensures variables { too_many_variables self.now ≡ None }
        ensures instances { too_many_instances self.now ≡ None }
    {
        &self.spec
    }

    /// Does an edit, in time and memory that go with what it touches: a pair by the pairs, a copied row by the rows of its
    /// entity, a rule by the entities of its relation and the rules. A refusal changes nothing. A withdrawal takes no memory,
    /// and no limit refuses it.
    pub fn edit(&mut self, alloc: Global, edit: Edit) -> Result<(), EditFault>
        requires { IsEditOf self.old edit }
        ensures ok { OnOk result (edited self.old edit ≡ Ok self.new) }
        ensures due { IfErr result (IsRefused self.old edit) }
        ensures withdrawal { IsWithdrawal edit → IfErr result (IsDueOf self.old edit) }
        ensures err { OnErr result (self.new ≡ self.old) }
    {
        self.left = done(alloc, &mut self.spec, &self.lists, self.left, edit)?;
        Ok(())
    }
}

/// The rows of each entity, relation by relation, and what the instances leave of their bound.
#[derive(Drop)]
struct Counts {
    lists: EntityLists,
    left: u32,
}

/// What is counted of a specification within its limits.
fn counted(alloc: Global, spec: &Specification) -> Result<Counts, NoMemory>
    requires parts { exceeded spec.now ≡ None }
    requires variables { too_many_variables spec.now ≡ None }
    requires instances { too_many_instances spec.now ≡ None }
    ensures { IfOk result (λ c. IsCounted spec.now c.lists c.left) }
{
    let lists = entity_lists(alloc, spec.relations())?;
    let left = left_by_all(spec, &lists).unwrap();
    Ok(Counts { lists, left })
}

/// Does an edit, and answers what the instances then leave of their bound.
fn done(
    alloc: Global,
    spec: &mut Specification,
    lists: &EntityLists,
    left: u32,
    edit: Edit,
) -> Result<u32, EditFault>
    requires counted { IsCounted spec.old lists.now left }
    requires there { IsEditOf spec.old edit }
    ensures ok { OnOk result (edited spec.old edit ≡ Ok spec.new) }
    ensures counted { IfOk result (IsCounted spec.new lists.now) }
    ensures due { IfErr result (IsRefused spec.old edit) }
    ensures withdrawal { IsWithdrawal edit → IfErr result (IsDueOf spec.old edit) }
    ensures err { OnErr result (spec.new ≡ spec.old) }
{
    match edit {
        Edit::AddGiven { rel, pair } => {
            add_given(spec, rel, pair)?;
            Ok(left)
        }
        Edit::AddRule(rule) => add_rule(spec, lists, left, rule),
        Edit::MapCopied {
            copy,
            target,
            source,
        } => map_copied(alloc, spec, lists, left, copy, target, source),
        Edit::WithdrawGiven { rel, pair } => {
            withdraw_given(spec, rel, pair)?;
            Ok(left)
        }
        Edit::WithdrawRule(rule) => Ok(withdraw_rule(spec, lists, left, rule)),
        Edit::UnmapCopied {
            copy,
            target,
            source,
        } => unmap_copied(spec, lists, left, copy, target, source),
    }
}
