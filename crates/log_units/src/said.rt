ghost use Rattle.std.specs.Prelude.{◌≡◌, option_map, slice_get};
ghost use Rattle.log_units.specs.Said.{pair_of, row_at, row_of, tuple_of};

use currency_base::{AttrId, EntId, RelId, RowId, Tuple};
use log_axioms::Signed;
use refutation_log::Statement;
use spec_model::Relation;

/// That one row of a relation stands before another in an attribute.
#[derive(Clone, Copy, PartialEq, Eq, PartialOrd, Ord)]
pub(crate) struct SaidPair {
    pub rel: RelId,
    pub attr: AttrId,
    pub earlier: RowId,
    pub later: RowId,
}

/// An attribute and an entity of a relation.
#[derive(Clone, Copy, PartialEq, Eq, PartialOrd, Ord)]
pub(crate) struct Place {
    pub rel: RelId,
    pub attr: AttrId,
    pub ent: EntId,
}

/// That a row's value is the current one at a place.
#[derive(Clone, Copy, PartialEq, Eq)]
pub(crate) struct SaidRow {
    pub place: Place,
    pub row: RowId,
}

/// The pair that a statement with its sign says, if it is one. That a row does not stand before another
/// says that it stands after it.
pub(crate) fn pair_of(said: Signed) -> Option<SaidPair>
    ensures { result ≡ pair_of said }
{
    match said.statement {
        Statement::Before {
            rel,
            attr,
            earlier,
            later,
        } => {
            if said.negative {
                Some(SaidPair {
                    rel,
                    attr,
                    earlier: later,
                    later: earlier,
                })
            } else {
                Some(SaidPair {
                    rel,
                    attr,
                    earlier,
                    later,
                })
            }
        }
        _ => None,
    }
}

/// The row whose value a statement with its sign says to be the current one, and the place of this value, if
/// it says so of a row that is there.
pub(crate) fn row_of(relations: &[Relation], said: Signed) -> Option<SaidRow>
    ensures { result ≡ row_of relations.now said }
{
    match said.statement {
        Statement::Last { rel, attr, row } => {
            if said.negative {
                None
            } else {
                placed(relations, rel, attr, row)
            }
        }
        _ => None,
    }
}

/// The tuple that a statement with its sign says to be an answer, if it says so of one that is there.
pub(crate) fn tuple_of(tuples: &[Tuple], said: Signed) -> Option<&Tuple>
    ensures { option_map (λ t. t.now) result ≡ tuple_of tuples.now said }
{
    match said.statement {
        Statement::Answer { tuple } => {
            if said.negative {
                None
            } else {
                tuple_at(tuples, tuple)
            }
        }
        _ => None,
    }
}

// The tuple at a place, if there is one.
fn tuple_at(tuples: &[Tuple], place: u32) -> Option<&Tuple>
    ensures { option_map (λ t. t.now) result ≡ slice_get tuples.now place }
{
    tuples.get(place as usize)
}

// A row, if it is there, at the place of its value.
fn placed(relations: &[Relation], rel: RelId, attr: AttrId, row: RowId) -> Option<SaidRow>
    ensures { result ≡ row_at relations.now rel attr row }
{
    let Some(relation) = relations.get(rel.0 as usize) else {
        return None;
    };
    match relation.rows.as_slice().get(row.0 as usize) {
        Some(found) => {
            let ent = found.entity;
            Some(SaidRow {
                place: Place { rel, attr, ent },
                row,
            })
        }
        None => None,
    }
}
