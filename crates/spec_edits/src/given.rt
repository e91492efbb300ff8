// Given pairs that are added and withdrawn.

ghost use Rattle.std.specs.Prelude.{◌≡◌, ℕ, List, Ok, IfErr, IfSome, OnErr, OnOk, slice_get};
ghost use Rattle.currency_base.specs.declared.ids.RowId.{RowId};
ghost use Rattle.spec_edits.specs.Counted.{IsCounted};
ghost use Rattle.spec_edits.specs.Edits.{IsDueOf, IsPairAt, IsRefused, edited};
ghost use Rattle.spec_limits.specs.Instances.{are_of_one_entity};

use crate::{Edit, EditFault};
use currency_base::{Pair, RelId};
use spec_limits::are_of_one_entity;
use spec_model::Specification;

/// Adds a given pair to a relation, unless its rows are one, or of two entities. A refusal changes nothing, and no limit asks
/// for given pairs.
pub(crate) fn add_given(spec: &mut Specification, rel: RelId, pair: Pair) -> Result<(), EditFault>
    requires { IsPairAt spec.old.relations rel.0 pair }
    ensures ok { OnOk result (edited spec.old (Edit.AddGiven rel pair) ≡ Ok spec.new) }
    ensures counted { (lists : List (List (List RowId))) (left : ℕ) → IsCounted spec.old lists left
        → IsCounted spec.new lists left }
    ensures due { IfErr result (IsRefused spec.old (Edit.AddGiven rel pair)) }
    ensures err { OnErr result (spec.new ≡ spec.old) }
{
    if !is_of_one_entity(spec, rel, &pair) {
        return Err(EditFault::NotOneEntity);
    }
    spec.add_given(rel, pair)?;
    Ok(())
}

/// Takes a given pair out of a relation, if it is there. Takes no memory.
pub(crate) fn withdraw_given(
    spec: &mut Specification,
    rel: RelId,
    pair: Pair,
) -> Result<(), EditFault>
    requires { IsPairAt spec.old.relations rel.0 pair }
    ensures ok { OnOk result (edited spec.old (Edit.WithdrawGiven rel pair) ≡ Ok spec.new) }
    ensures counted { (lists : List (List (List RowId))) (left : ℕ) → IsCounted spec.old lists left
        → IsCounted spec.new lists left }
    ensures due { IfErr result (IsDueOf spec.old (Edit.WithdrawGiven rel pair)) }
    ensures err { OnErr result (spec.new ≡ spec.old) }
{
    if !spec.withdraw_given(rel, pair) {
        return Err(EditFault::NotThere);
    }
    Ok(())
}

/// Are the rows of a pair two different rows of one entity of this relation?
fn is_of_one_entity(spec: &Specification, rel: RelId, pair: &Pair) -> bool
    requires { IsPairAt spec.now.relations rel.0 pair.now }
    ensures { IfSome (slice_get spec.now.relations rel.0) (λ r. result ≡
        are_of_one_entity r.rows pair.now.earlier pair.now.later) }
{
    let rows = spec.relations()[rel.0 as usize].rows.as_slice();
    are_of_one_entity(rows, pair.earlier, pair.later)
}
