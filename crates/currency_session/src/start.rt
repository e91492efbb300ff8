//! What a search may start from.

ghost use Rattle.std.specs.Prelude.{◌≡◌, List, IfSome};
ghost use Rattle.spec_model.specs.Completion.{HasShape};
ghost use Rattle.spec_model.specs.declared.relation.Relation.{Relation};

use currency_base::{RelId, RowId};
use edit_checks::breaks_given;
use spec_model::{Asked, Completion, Specification};
use std::alloc::Global;

// The most pairs, and the most copied rows, for which a lost completion is kept.
const MOST_PAIRS: usize = 16;

const MOST_ROWS: usize = 16;

/// What a search may start from.
#[derive(Drop)]
pub(crate) struct Start {
    /// A consistent completion of the specification as it is now, if one is known.
    pub known: Option<Completion>,
    /// One that was known before, if there is one.
    pub lost: Option<Lost>,
    /// The pair that was added when a known completion was last lost.
    pub turned: Option<Asked>,
}

/// A row of a relation.
#[derive(Clone, Copy)]
pub(crate) struct RelationRow {
    pub rel: RelId,
    pub row: RowId,
}

/// A completion that was consistent, until these pairs were added, which it has the other way round, or copied rows with these
/// target rows.
#[derive(Drop)]
pub(crate) struct Lost {
    pub completion: Completion,
    pub pairs: Vec<Asked>,
    pub rows: Vec<RelationRow>,
}

/// A completion that is lost, of which it is not told yet what broke it.
pub(crate) fn lose(alloc: Global, known: Option<Completion>) -> Option<Lost>
    ensures { (relations : List Relation) → IfSome known (HasShape relations)
        → IfSome result (λ l. HasShape relations l.completion) }
{
    match known {
        Some(completion) => Some(Lost {
            completion,
            pairs: Vec::new(alloc),
            rows: Vec::new(alloc),
        }),
        None => None,
    }
}

/// A lost completion, after a pair was added: one that it has the other way round is put to the others. None, where these are
/// too many.
pub(crate) fn with_added(spec: &Specification, lost: Option<Lost>, asked: Asked) -> Option<Lost>
    requires { IfSome lost (λ l. HasShape spec.now.relations l.completion) }
    ensures { IfSome result (λ l. HasShape spec.now.relations l.completion) }
{
    match lost {
        Some(lost) => with_pair(spec, lost, asked),
        None => None,
    }
}

/// The same where there is one.
fn with_pair(spec: &Specification, lost: Lost, asked: Asked) -> Option<Lost>
    requires { HasShape spec.now.relations lost.completion }
    ensures { IfSome result (λ l. l.completion ≡ lost.completion) }
{
    if !breaks_given(spec, asked, &lost.completion) {
        return Some(lost);
    }
    let Lost {
        completion,
        mut pairs,
        rows,
    } = lost;
    if pairs.len() >= MOST_PAIRS || pairs.push(asked).is_err() {
        return None;
    }
    Some(Lost {
        completion,
        pairs,
        rows,
    })
}

/// A lost completion, after a copied row with this target row was added: it is put to the others. None, where these are too
/// many.
pub(crate) fn with_copied(lost: Option<Lost>, row: RelationRow) -> Option<Lost>
    ensures { (relations : List Relation) → IfSome lost (λ l. HasShape relations l.completion)
        → IfSome result (λ l. HasShape relations l.completion) }
{
    match lost {
        Some(lost) => with_row(lost, row),
        None => None,
    }
}

/// The same where there is one.
fn with_row(lost: Lost, row: RelationRow) -> Option<Lost>
    ensures { IfSome result (λ l. l.completion ≡ lost.completion) }
{
    let Lost {
        completion,
        pairs,
        mut rows,
    } = lost;
    if rows.len() >= MOST_ROWS || rows.push(row).is_err() {
        return None;
    }
    Some(Lost {
        completion,
        pairs,
        rows,
    })
}
