ghost use Rattle.std.specs.Prelude.{◌≡◌, None, true, option_map, slice_get};
ghost use Rattle.spec_model.specs.Facts.{AreRelations};
ghost use Rattle.log_form.specs.Form.{rows_of, has_attr, is_known, is_canonical, has_rows, is_pair, statement_fault, statements_fault};
ghost use Rattle.log_form.specs.Indexed.{AreIndexed, IsIndexFor, is_last};

use crate::FormFault;
use crate::index::EntityIndex;
use crate::order::is_above;
use crate::rows::{are_of_one, is_first_alike, is_row};
use currency_base::{AttrId, ErrorCode, RelId, Row, Tuple};
use refutation_log::Statement;
use spec_model::Relation;

/// The first of the statements at fault, if one is. A statement takes constant time, beside the values of
/// the tuples that it compares, and the rows of an entity where it is a `Last`.
pub(crate) fn statements_fault(
    relations: &[Relation],
    index: &EntityIndex,
    answers: &[Tuple],
    statements: &[Statement],
) -> Option<FormFault>
    requires facts { AreRelations relations.now }
    requires index { IsIndexFor statements.now relations.now index.now }
    ensures { result ≡ statements_fault relations.now answers.now 0 None statements.now }
{
    let mut before = None;
    for place in 0..statements.len() {
        let statement = statements[place];
        if let Some(code) = statement_fault(relations, index, answers, before, statement) {
            return Some(FormFault::Statement { place, code });
        }
        before = Some(statement);
    }
    None
}

// What is at fault in a statement that stands after another or none, if anything is.
fn statement_fault(
    relations: &[Relation],
    index: &EntityIndex,
    answers: &[Tuple],
    before: Option<Statement>,
    statement: Statement,
) -> Option<ErrorCode>
    requires facts { AreRelations relations.now }
    requires index { is_last statement ≡ true → AreIndexed relations.now index.now }
    ensures { result ≡ statement_fault relations.now answers.now before statement }
{
    if !is_known(relations, statement) {
        Some(ErrorCode::UnknownName)
    } else if !is_above(answers, before, statement) {
        Some(ErrorCode::DuplicateName)
    } else if !is_canonical(relations, index, statement) {
        Some(ErrorCode::Mismatch)
    } else if !has_rows(relations, statement) {
        Some(ErrorCode::UnknownRow)
    } else if !is_pair(relations, statement) {
        Some(ErrorCode::NotOneEntity)
    } else {
        None
    }
}

// Are the relation and the attribute of the statement there?
fn is_known(relations: &[Relation], statement: Statement) -> bool
    ensures { result ≡ is_known relations.now statement }
{
    match statement {
        Statement::Before { rel, attr, .. } => has_attr(relations, rel, attr),
        Statement::Top { rel, attr, .. } => has_attr(relations, rel, attr),
        Statement::Last { rel, attr, .. } => has_attr(relations, rel, attr),
        Statement::Answer { .. } => true,
    }
}

// Is the relation there, and has it the attribute?
fn has_attr(relations: &[Relation], rel: RelId, attr: AttrId) -> bool
    ensures { result ≡ has_attr relations.now rel attr }
{
    match relation_at(relations, rel) {
        Some(relation) => (attr.0 as usize) < relation.attrs.len(),
        None => false,
    }
}

// Is it no `Last`, or of the first row of its entity with its value?
#[tactic(auto, using(crate::proofs::Places::relation_facts, crate::proofs::Places::indexed_at, crate::proofs::Places::alike_some, crate::proofs::Places::alike_none))]
fn is_canonical(relations: &[Relation], index: &EntityIndex, statement: Statement) -> bool
    requires facts { AreRelations relations.now }
    requires index { is_last statement ≡ true → AreIndexed relations.now index.now }
    ensures { result ≡ is_canonical relations.now statement }
{
    match statement {
        Statement::Last { rel, attr, row } => match relation_at(relations, rel) {
            Some(relation) => is_first_alike(relation, index.get(rel.0 as usize), attr, row),
            None => true,
        },
        _ => true,
    }
}

// Are the rows of the statement there?
fn has_rows(relations: &[Relation], statement: Statement) -> bool
    ensures { result ≡ has_rows relations.now statement }
{
    match statement {
        Statement::Before {
            rel,
            earlier,
            later,
            ..
        } => is_row(rows_of(relations, rel), earlier) && is_row(rows_of(relations, rel), later),
        Statement::Top { rel, row, .. } => is_row(rows_of(relations, rel), row),
        Statement::Last { rel, row, .. } => is_row(rows_of(relations, rel), row),
        Statement::Answer { .. } => true,
    }
}

// Is it no `Before`, or are its rows of one entity, the first number below the second?
fn is_pair(relations: &[Relation], statement: Statement) -> bool
    ensures { result ≡ is_pair relations.now statement }
{
    match statement {
        Statement::Before {
            rel,
            earlier,
            later,
            ..
        } => are_of_one(rows_of(relations, rel), earlier, later) && earlier.0 < later.0,
        _ => true,
    }
}

// The rows of a relation; none where it is not there.
fn rows_of(relations: &[Relation], rel: RelId) -> &[Row]
    ensures { result.now ≡ rows_of relations.now rel }
{
    match relation_at(relations, rel) {
        Some(relation) => relation.rows.as_slice(),
        None => &[],
    }
}

// A relation, if it is there.
fn relation_at(relations: &[Relation], rel: RelId) -> Option<&Relation>
    ensures { option_map (λ r. r.now) result ≡ slice_get relations.now rel.0 }
{
    relations.get(rel.0 as usize)
}
