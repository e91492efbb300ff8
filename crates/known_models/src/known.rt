ghost use Rattle.std.specs.Prelude.{◌≡◌, ◌<◌, ◌↔◌, ℕ, All, Contains, true, false, length, replicate, slice_get, slice_set, IfOk, IfNone, IfSome, OnErr, Some};
ghost use Rattle.spec_model.specs.Blank.{blank_of};
ghost use Rattle.known_models.specs.Known.{IsKnown, IsWhole, variables_in, vars_in};
ghost use Rattle.known_models.specs.Changes.{AreBelied, AreModelOf, IsBeside, IsReplaced, Takes, left_in};
ghost use Rattle.known_models.specs.Ranked.{FindsPart};

use crate::draft::Draft;
use crate::parted::PartedSpec;
use crate::placing::put_lists;
use crate::ranking::rank_part;
use crate::truths::{make_same, put_values};
use completion_build::CycleList;
use currency_base::{Assignment, NoMemory};
use order_literals::pairs_are_decided;
use search_trail::Values;
use spec_model::Completion;
use std::alloc::Global;
use std::marker::Model;

/// A truth for each variable and an order of the rows, of which some parts are done: on these the truths make the axioms
/// true, and the rows stand in the order that the truths say. Contracts see the truths, the order, and for each part whether
/// it is done. A variable takes two bytes, and a part one.
#[derive(Drop)]
pub struct KnownModel {
    truths: Assignment,
    // the truths once more; those of one part are put here first
    trial: Assignment,
    completion: Completion,
    // for each part
    done: Vec<bool>,
    // how many parts are not done
    left: usize,
}

impl Model for KnownModel {
    ghost use Rattle.known_models.specs.Changes.{IsKept};
    ghost use Rattle.known_models.specs.Known.{KnownModel};

    ghost Value = { KnownModel };

    ghost view = { λ k. record { truths = k.truths; completion = k.completion; done = k.done.items } };

    ghost invariant = { λ k. IsKept k.truths k.trial k.done.items k.left };
}

impl KnownModel {
    /// Each truth is false, no row stands in a list, and no part is done. Takes time and memory in proportion to the variables
    /// and to the lists.
    pub fn new(alloc: Global, parted: &PartedSpec<'_>) -> Result<KnownModel, NoMemory>
        ensures known { IfOk result (IsKnown parted.now) }
        ensures truths { IfOk result (λ k. k.truths ≡ replicate (length (variables_in parted.now)) false) }
        ensures completion { IfOk result (λ k. k.completion ≡ blank_of parted.now.spec.relations) }
        ensures done { IfOk result (λ k. k.done ≡ replicate (length parted.now.parts) false) }
    {
        let vars = parted.variables();
        let left = parted.count();
        let truths = Assignment::new(alloc, vars)?;
        let trial = Assignment::new(alloc, vars)?;
        let done = none_done(alloc, left)?;
        let completion = Completion::new(alloc, parted.spec())?;
        Ok(KnownModel {
            truths,
            trial,
            completion,
            done,
            left,
        })
    }

    /// The truths, in the order of the variables.
    pub fn truths(&self) -> &Assignment
        ensures { result.now ≡ self.now.truths }
    {
        &self.truths
    }

    /// The order of the rows.
    pub fn completion(&self) -> &Completion
        ensures { result.now ≡ self.now.completion }
    {
        &self.completion
    }

    /// Is every part done? Takes constant time.
    pub fn is_whole(&self) -> bool
        ensures { (result ≡ true) ↔ IsWhole self.now }
    {
        self.left == 0
    }

    /// Is a part done? Takes constant time.
    pub fn is_done(&self, part: u32) -> bool
        requires { part < length self.now.done }
        ensures { slice_get self.now.done part ≡ Some result }
    {
        self.done[part as usize]
    }

    /// Makes the truths of variables that are of no part what their values are. No part is made anew by that.
    pub fn take_beside(&mut self, parted: &PartedSpec<'_>, vars: &[u32], values: &Values)
        requires known { IsKnown parted.now self.old }
        requires many { length values.now.given ≡ length (variables_in parted.now) }
        requires beside { All (IsBeside parted.now values.now.given) vars.now }
        ensures known { IsKnown parted.now self.new }
        ensures truths { Takes vars.now values.now.given self.old.truths self.new.truths }
        ensures completion { self.new.completion ≡ self.old.completion }
        ensures done { self.new.done ≡ self.old.done }
    {
        parted.facts();
        put_values(&mut self.truths, vars, values);
        make_same(&mut self.trial, vars, &self.truths);
    }

    /// Gives a variable that is of no part a truth.
    pub fn set_beside(&mut self, parted: &PartedSpec<'_>, var: u32, truth: bool)
        requires known { IsKnown parted.now self.old }
        requires within { var < length (variables_in parted.now) }
        requires beside { (part : ℕ) → Contains (vars_in parted.now part) var → ⊥ }
        ensures known { IsKnown parted.now self.new }
        ensures truths { self.new.truths ≡ slice_set self.old.truths var truth }
        ensures completion { self.new.completion ≡ self.old.completion }
        ensures done { self.new.done ≡ self.old.done }
    {
        parted.facts();
        self.truths.set(var, truth);
        self.trial.set(var, truth);
    }

    /// Makes a part anew, by values that are a model of it. Where the lists of the part have an order, it is done: its
    /// variables and lists follow the values, and the others are as they were. Else it answers a cycle of each list of the part
    /// that goes round, in no order that is told, and nothing is changed, nor is it for want of memory. Takes time in proportion
    /// to the variables of the part, and to the pairs of rows of one entity of it in each attribute.
    pub fn replace(
        &mut self,
        alloc: Global,
        parted: &PartedSpec<'_>,
        part: u32,
        values: &Values,
    ) -> Result<Option<CycleList>, NoMemory>
        requires known { IsKnown parted.now self.old }
        requires part { part < length parted.now.parts }
        requires values { AreModelOf parted.now values.now.given part }
        ensures replaced { IfOk result (λ found. IfNone found
            (IsReplaced parted.now values.now.given part self.old self.new)) }
        ensures belied { IfOk result (λ found. IfSome found (AreBelied parted.now values.now.given part self.old)) }
        ensures cycles { IfOk result (λ found. IfSome found (λ cycles. self.new ≡ self.old)) }
        ensures err { OnErr result (self.new ≡ self.old) }
    {
        pairs_are_decided();
        parted.facts();
        let vars = parted.vars(part);
        let draft = match rank_values(alloc, parted, part, values, &mut self.trial) {
            Ok(draft) => draft,
            Err(error) => {
                make_same(&mut self.trial, vars, &self.truths);
                return Err(error);
            }
        };
        let Draft { lists, cycles } = draft;
        if cycles.len() > 0 {
            make_same(&mut self.trial, vars, &self.truths);
            return Ok(Some(cycles));
        }
        make_same(&mut self.truths, vars, &self.trial);
        put_lists(&mut self.completion, lists);
        finish(&mut self.done, &mut self.left, part);
        Ok(None)
    }
}

// Makes the truths of a part's variables what their values are, and tells what they say of its lists.
fn rank_values(
    alloc: Global,
    parted: &PartedSpec<'_>,
    part: u32,
    values: &Values,
    truths: &mut Assignment,
) -> Result<Draft, NoMemory>
    requires truths { length truths.old ≡ length (variables_in parted.now) }
    requires part { part < length parted.now.parts }
    requires values { AreModelOf parted.now values.now.given part }
    ensures takes { Takes (vars_in parted.now part) values.now.given truths.old truths.new }
    ensures found { IfOk result (FindsPart parted.now part truths.new) }
{
    parted.facts();
    let vars = parted.vars(part);
    put_values(truths, vars, values);
    rank_part(alloc, parted, part, truths)
}

// For each of so many parts, that it is not done.
fn none_done(alloc: Global, count: usize) -> Result<Vec<bool>, NoMemory>
    ensures { IfOk result (λ done. done.items ≡ replicate count false) }
{
    let mut done = Vec::new(alloc);
    done.resize(count, false)?;
    Ok(done)
}

// A part is done.
fn finish(done: &mut Vec<bool>, left: &mut usize, part: u32)
    requires part { part < length done.old.items }
    requires left { left.old ≡ left_in done.old.items }
    ensures done { done.new.items ≡ slice_set done.old.items part true }
    ensures left { left.new ≡ left_in done.new.items }
{
    if !done[part as usize] {
        done[part as usize] = true;
        *left -= 1;
    }
}
