//! The smallest parts of which a derivation and a question speak. Nothing hangs on which these are but how soon an
//! explanation is found.

ghost use Rattle.std.specs.Prelude.{◌<◌, ℕ, All, IfOk, IfSome, OnOk};
ghost use Rattle.entity_ties.specs.Labels.{AreTies};

use currency_base::{CopyId, NoMemory, RelId, RowId, RuleId};
use entity_ties::Ties;
use refutation_log::{LabelRef, Log, StepRef};
use spec_model::{Asked, Question, Specification};
use std::alloc::Global;

/// The smallest parts that have the rows of which the axioms of a log and a question speak.
pub(crate) fn touched(
    alloc: Global,
    spec: &Specification,
    ties: &Ties,
    question: &Question,
    log: &Log,
) -> Result<Vec<u32>, NoMemory>
    requires { AreTies spec.now ties.now }
    ensures { IfOk result (λ parts. All (λ part. part < ties.now.count) parts.items) }
{
    let mut parts = Vec::new(alloc);
    put_question(spec, ties, question, &mut parts)?;
    put_log(spec, ties, log, &mut parts)?;
    Ok(parts)
}

/// Puts in the parts of the rows of which a question speaks.
fn put_question(
    spec: &Specification,
    ties: &Ties,
    question: &Question,
    parts: &mut Vec<u32>,
) -> Result<(), NoMemory>
    requires ties { AreTies spec.now ties.now }
    requires below { All (λ part. part < ties.now.count) parts.old.items }
    ensures { OnOk result (All (λ part. part < ties.now.count) parts.new.items) }
{
    match question {
        Question::Certain(pairs) => put_pairs(spec, ties, pairs.as_slice(), parts),
        _ => Ok(()),
    }
}

/// Puts in the parts of the rows of pairs.
fn put_pairs(
    spec: &Specification,
    ties: &Ties,
    pairs: &[Asked],
    parts: &mut Vec<u32>,
) -> Result<(), NoMemory>
    requires ties { AreTies spec.now ties.now }
    requires below { All (λ part. part < ties.now.count) parts.old.items }
    ensures { OnOk result (All (λ part. part < ties.now.count) parts.new.items) }
{
    for asked in pairs {
        put_row(spec, ties, asked.rel, asked.pair.earlier, parts)?;
    }
    Ok(())
}

/// Puts in the parts of the axioms of a log.
fn put_log(
    spec: &Specification,
    ties: &Ties,
    log: &Log,
    parts: &mut Vec<u32>,
) -> Result<(), NoMemory>
    requires ties { AreTies spec.now ties.now }
    requires below { All (λ part. part < ties.now.count) parts.old.items }
    ensures { OnOk result (All (λ part. part < ties.now.count) parts.new.items) }
{
    for place in 0..log.steps.len() {
        put_step(spec, ties, log.steps.get(place), parts)?;
    }
    Ok(())
}

/// Puts in the parts of a step, if it is an axiom.
fn put_step(
    spec: &Specification,
    ties: &Ties,
    step: StepRef<'_>,
    parts: &mut Vec<u32>,
) -> Result<(), NoMemory>
    requires ties { AreTies spec.now ties.now }
    requires below { All (λ part. part < ties.now.count) parts.old.items }
    ensures { OnOk result (All (λ part. part < ties.now.count) parts.new.items) }
{
    match step {
        StepRef::Axiom { label, .. } | StepRef::OnDemand { label, .. } => {
            put_label(spec, ties, label, parts)
        }
        StepRef::Learn { .. } => Ok(()),
    }
}

/// Puts in the part of a label's first row: all its rows are of entities that one part has.
fn put_label(
    spec: &Specification,
    ties: &Ties,
    label: LabelRef<'_>,
    parts: &mut Vec<u32>,
) -> Result<(), NoMemory>
    requires ties { AreTies spec.now ties.now }
    requires below { All (λ part. part < ties.now.count) parts.old.items }
    ensures { OnOk result (All (λ part. part < ties.now.count) parts.new.items) }
{
    match label {
        LabelRef::Given { rel, earlier, .. } => put_row(spec, ties, rel, earlier, parts),
        LabelRef::Transitive { rel, first, .. } => put_row(spec, ties, rel, first, parts),
        LabelRef::Rule { rule, rows } => put_ruled(spec, ties, rule, rows, parts),
        LabelRef::Copy { copy, first, .. } => put_copied(spec, ties, copy, first, parts),
        LabelRef::Above { rel, row, .. }
        | LabelRef::Top { rel, row, .. }
        | LabelRef::Last { rel, row, .. }
        | LabelRef::Value { rel, row, .. } => put_row(spec, ties, rel, row, parts),
        LabelRef::Match { .. } => Ok(()),
    }
}

/// Puts in the part of the first row to which a rule is applied.
fn put_ruled(
    spec: &Specification,
    ties: &Ties,
    rule: RuleId,
    rows: &[RowId],
    parts: &mut Vec<u32>,
) -> Result<(), NoMemory>
    requires ties { AreTies spec.now ties.now }
    requires below { All (λ part. part < ties.now.count) parts.old.items }
    ensures { OnOk result (All (λ part. part < ties.now.count) parts.new.items) }
{
    let Some(rule) = spec.rules().get(rule.0 as usize) else {
        return Ok(());
    };
    match rows.first() {
        Some(row) => put_row(spec, ties, rule.relation, *row, parts),
        None => Ok(()),
    }
}

/// Puts in the part of a mapped row.
fn put_copied(
    spec: &Specification,
    ties: &Ties,
    copy: CopyId,
    row: RowId,
    parts: &mut Vec<u32>,
) -> Result<(), NoMemory>
    requires ties { AreTies spec.now ties.now }
    requires below { All (λ part. part < ties.now.count) parts.old.items }
    ensures { OnOk result (All (λ part. part < ties.now.count) parts.new.items) }
{
    match spec.copies().get(copy.0 as usize) {
        Some(function) => put_row(spec, ties, function.target(), row, parts),
        None => Ok(()),
    }
}

/// Puts in the part of a row, if it is there, unless that part was put in last.
fn put_row(
    spec: &Specification,
    ties: &Ties,
    rel: RelId,
    row: RowId,
    parts: &mut Vec<u32>,
) -> Result<(), NoMemory>
    requires ties { AreTies spec.now ties.now }
    requires below { All (λ part. part < ties.now.count) parts.old.items }
    ensures { OnOk result (All (λ part. part < ties.now.count) parts.new.items) }
{
    match part_of_row(spec, ties, rel, row) {
        Some(part) => put(part, parts),
        None => Ok(()),
    }
}

/// The part of a row, if it is there.
fn part_of_row(spec: &Specification, ties: &Ties, rel: RelId, row: RowId) -> Option<u32>
    requires { AreTies spec.now ties.now }
    ensures { IfSome result (λ part. part < ties.now.count) }
{
    let relation = spec.relations().get(rel.0 as usize)?;
    if row.0 as usize >= relation.rows.len() {
        return None;
    }
    Some(ties.part_of(rel, relation.rows.row(row).entity))
}

/// Puts in a part, unless it was put in last.
fn put(part: u32, parts: &mut Vec<u32>) -> Result<(), NoMemory>
    ensures { (bound : ℕ) → part < bound → All (λ it. it < bound) parts.old.items
        → OnOk result (All (λ it. it < bound) parts.new.items) }
{
    if let Some(last) = parts.last() {
        if *last == part {
            return Ok(());
        }
    }
    parts.push(part)?;
    Ok(())
}
