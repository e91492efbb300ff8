ghost use Rattle.std.specs.Prelude.{◌≡◌, ◌+◌, ℕ, List, All, IfOk, IfErr, OnOk, length};
ghost use Rattle.refutation_log.specs.declared.log.Log.{Log as LogOf};
ghost use Rattle.report_model.specs.declared.report.Part.TheVariants as part;
ghost use Rattle.report_verify.specs.Judged.{IsFirstUnmet, IsShownOf, IsUnmet, IsUnmetFrom};
ghost use Rattle.report_verify.specs.Supported.{IsDerived, Need, answer_needs, item_needs, needs_of, pair_needs, value_needs};
ghost use Rattle.spec_model.specs.declared.relation.Relation.{Relation};

use crate::{Missing, Unshown, VerifyFault};
use currency_base::{AttrId, NoMemory, Tuple, TupleList};
use log_checker::Checked;
use log_units::Units;
use refutation_log::Log;
use report_model::{Current, CurrentList, Part, Report, Verdict};
use spec_model::{Asked, AskedList, Question, Specification};
use std::alloc::Global;

// Has the log of a report the unit of each claim of its verdict? Otherwise the first claim whose unit it has
// not.
pub(crate) fn check_units(
    alloc: Global,
    spec: &Specification,
    question: &Question,
    report: &Report,
    checked: &Option<Checked>,
) -> Result<(), VerifyFault>
    requires { IsShownOf report.now.log checked.now }
    ensures derived { OnOk result (All (IsDerived spec.now.relations report.now.log) (needs_of question.now report.now.verdict)) }
    ensures unmet { IfErr result (IsUnmet spec.now.relations report.now.log (needs_of question.now report.now.verdict)) }
{
    match &report.verdict {
        Verdict::Certain => match question {
            Question::Certain(pairs) => check_claimed_pairs(
                alloc,
                spec,
                &report.log,
                checked,
                pairs,
            ),
            _ => Ok(()),
        },
        Verdict::Same(items) => check_claimed_items(alloc, spec, &report.log, checked, items),
        Verdict::Answers(tuples) => check_claimed_answers(
            alloc,
            spec,
            &report.log,
            checked,
            tuples,
        ),
        _ => Ok(()),
    }
}

// Has a log the unit of each of these pairs?
fn check_claimed_pairs(
    alloc: Global,
    spec: &Specification,
    log: &Log,
    checked: &Option<Checked>,
    pairs: &AskedList,
) -> Result<(), VerifyFault>
    requires { IsShownOf log.now checked.now }
    ensures derived { OnOk result (All (IsDerived spec.now.relations log.now) (pair_needs pairs.now)) }
    ensures unmet { IfErr result (IsUnmet spec.now.relations log.now (pair_needs pairs.now)) }
{
    match units_of(alloc, spec, log, checked) {
        Ok(units) => check_pairs(&units, pairs.as_slice()),
        Err(_) => Err(VerifyFault::NoMemory),
    }
}

// Has a log the unit of each value of these items?
fn check_claimed_items(
    alloc: Global,
    spec: &Specification,
    log: &Log,
    checked: &Option<Checked>,
    items: &CurrentList,
) -> Result<(), VerifyFault>
    requires { IsShownOf log.now checked.now }
    ensures derived { OnOk result (All (IsDerived spec.now.relations log.now) (item_needs 0 items.now)) }
    ensures unmet { IfErr result (IsUnmet spec.now.relations log.now (item_needs 0 items.now)) }
{
    match units_of(alloc, spec, log, checked) {
        Ok(units) => check_items(&units, items.as_slice()),
        Err(_) => Err(VerifyFault::NoMemory),
    }
}

// Has a log the unit of each of these answers?
fn check_claimed_answers<'a>(
    alloc: Global,
    spec: &'a Specification,
    log: &'a Log,
    checked: &Option<Checked>,
    tuples: &'a TupleList,
) -> Result<(), VerifyFault>
    requires { IsShownOf log.now checked.now }
    ensures derived { OnOk result (All (IsDerived spec.now.relations log.now) (answer_needs 0 tuples.now)) }
    ensures unmet { IfErr result (IsUnmet spec.now.relations log.now (answer_needs 0 tuples.now)) }
{
    match units_of(alloc, spec, log, checked) {
        Ok(units) => check_answers(&units, tuples.as_slice()),
        Err(_) => Err(VerifyFault::NoMemory),
    }
}

// The units of a log that was checked, or has no step.
fn units_of<'a>(
    alloc: Global,
    spec: &'a Specification,
    log: &'a Log,
    checked: &Option<Checked>,
) -> Result<Units<'a>, NoMemory>
    requires { IsShownOf log.now checked.now }
    ensures relations { IfOk result (λ u. u.relations ≡ spec.now.relations) }
    ensures log { IfOk result (λ u. u.log ≡ log.now) }
{
    match checked {
        Some(checked) => Units::new(alloc, spec, log, checked),
        None => Ok(Units::of_no_steps(alloc, spec, log)),
    }
}

// Is there the unit of each of these pairs?
fn check_pairs(units: &Units<'_>, pairs: &[Asked]) -> Result<(), VerifyFault>
    ensures derived { OnOk result (All (IsDerived units.now.relations units.now.log) (pair_needs pairs.now)) }
    ensures unmet { IfErr result (IsUnmet units.now.relations units.now.log (pair_needs pairs.now)) }
{
    for (place, asked) in pairs.iter().enumerate() {
        let pair = asked.pair;
        if !units.has_before(asked.rel, pair.attr, pair.earlier, pair.later) {
            return Err(unmet(Part::Verdict, place));
        }
    }
    Ok(())
}

// Is there the unit of each value of these items? Claims count through the items.
fn check_items(units: &Units<'_>, items: &[Current]) -> Result<(), VerifyFault>
    ensures derived { OnOk result (All (IsDerived units.now.relations units.now.log) (item_needs 0 items.now)) }
    ensures unmet { IfErr result (IsUnmet units.now.relations units.now.log (item_needs 0 items.now)) }
{
    let mut place = 0;
    for (at, item) in items.iter().enumerate() {
        match check_values(units, item, at, place) {
            Ok(next) => place = next,
            Err(fault) => return Err(fault),
        }
    }
    Ok(())
}

// Is there the unit of each value of an item? Before its claims there are so many; the answer is how many
// there are with them.
fn check_values(
    units: &Units<'_>,
    item: &Current,
    at: usize,
    from: usize,
) -> Result<usize, VerifyFault>
    ensures next { IfOk result (λ next. next ≡ from + length item.now.values) }
    ensures derived { OnOk result (All (IsDerived units.now.relations units.now.log)
        (value_needs at item.now.rel item.now.ent 0 item.now.values)) }
    ensures unmet { IfErr result (IsUnmetFrom from units.now.relations units.now.log
        (value_needs at item.now.rel item.now.ent 0 item.now.values)) }
{
    let mut place = from;
    for (attr, value) in item.values.as_slice().iter().enumerate() {
        if attr > u32::MAX as usize || place == usize::MAX {
            return Err(VerifyFault::NoMemory);
        }
        if !units.has_last(item.rel, AttrId(attr as u32), item.ent, value) {
            return Err(unmet_item(at, place));
        }
        place += 1;
    }
    Ok(place)
}

// Is there the unit of each of these answers?
fn check_answers<'a>(units: &Units<'a>, tuples: &'a [Tuple]) -> Result<(), VerifyFault>
    ensures derived { OnOk result (All (IsDerived units.now.relations units.now.log) (answer_needs 0 tuples.now)) }
    ensures unmet { IfErr result (IsUnmet units.now.relations units.now.log (answer_needs 0 tuples.now)) }
{
    for (place, tuple) in tuples.iter().enumerate() {
        if !units.has_answer(tuple) {
            return Err(unmet_item(place, place));
        }
    }
    Ok(())
}

// A refusal for the claim of an item at a place. An item past the numbers of 32 bits counts as want of memory.
fn unmet_item(item: usize, place: usize) -> VerifyFault
    ensures { (from at : ℕ) (relations : List Relation) (log : LogOf) (needs : List Need) → place ≡ from + at
        → IsFirstUnmet relations log needs (part.Item item) at → IsUnmetFrom from relations log needs result }
{
    if item > u32::MAX as usize {
        return VerifyFault::NoMemory;
    }
    unmet(Part::Item(item as u32), place)
}

// A refusal for the claim at a place. One that is past the numbers of 32 bits counts as want of memory.
fn unmet(part: Part, place: usize) -> VerifyFault
    ensures { (from at : ℕ) (relations : List Relation) (log : LogOf) (needs : List Need) → place ≡ from + at
        → IsFirstUnmet relations log needs part at → IsUnmetFrom from relations log needs result }
{
    if place > u32::MAX as usize {
        return VerifyFault::NoMemory;
    }
    VerifyFault::Refused {
        part,
        why: Unshown::NotShown(Missing::NoUnit(place as u32)),
    }
}
