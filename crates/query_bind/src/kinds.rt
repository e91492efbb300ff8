// The kinds of places.

ghost use Rattle.std.specs.Prelude.{◌≡◌, slice_get};
ghost use Rattle.spec_model.specs.Facts.{kinds_of};
ghost use Rattle.spec_model.specs.Queries.{place_kinds};
ghost use Rattle.query_bind.specs.Queried.{clash, differ};

use bind_faults::{BindFault, Refusal};
use currency_base::{ErrorCode, ValueKind};
use spec_model::Relation;

/// The kind of an atom's place: the first is the entity's name, and each further one an attribute.
pub fn place_kind(relation: &Relation, place: usize) -> Option<ValueKind>
    ensures { result ≡ slice_get (place_kinds relation.now) place }
{
    if place == 0 {
        return Some(ValueKind::Text);
    }
    attr_kind(relation, place - 1)
}

/// The kind of an attribute, if it is there.
fn attr_kind(relation: &Relation, attr: usize) -> Option<ValueKind>
    ensures { result ≡ slice_get (kinds_of relation.now) attr }
{
    match relation.attrs.as_slice().get(attr) {
        Some(attr) => Some(attr.kind),
        None => None,
    }
}

/// The refusal of two kinds, at a line.
pub fn clash(line: u32, left: Option<ValueKind>, right: Option<ValueKind>) -> Option<BindFault>
    ensures { result ≡ clash line left right }
{
    if !differ(left, right) {
        return None;
    }
    Some(BindFault::Refused(Refusal {
        code: ErrorCode::Mismatch,
        document: None,
        line,
    }))
}

/// Are there two kinds, and not one?
fn differ(left: Option<ValueKind>, right: Option<ValueKind>) -> bool
    ensures { result ≡ differ left right }
{
    match (left, right) {
        (Some(ValueKind::Text), Some(ValueKind::Int)) => true,
        (Some(ValueKind::Int), Some(ValueKind::Text)) => true,
        _ => false,
    }
}
