ghost use Rattle.std.specs.Prelude.{◌≡◌, true, false, All};
ghost use Rattle.current_tuples.specs.Places.{IsPlaceOf};
ghost use Rattle.report_verify.specs.Listed.{AgreesAt, OneDiffers};
ghost use Rattle.report_verify.specs.Right.{PairHolds};
ghost use Rattle.report_verify.specs.Supported.{FailsInOne, TwoDiffer};
ghost use Rattle.spec_model.specs.Completion.{IsCompletion};
ghost use Rattle.spec_model.specs.Questions.{IsAskedPair};

use currency_base::{AttrId, Cmp, EntId, RelId};
use current_tuples::last;
use ranked_pairs::pair_holds;
use spec_model::{Asked, Completion, Relation, Specification};

// Does the pair fail in one of these completions?
pub(crate) fn one_breaks(spec: &Specification, completions: &[Completion], pair: Asked) -> bool
    requires pair { IsAskedPair spec.now.relations pair }
    requires completions { All (IsCompletion spec.now.relations) completions.now }
    ensures breaks { result ≡ true → FailsInOne pair completions.now }
    ensures none { result ≡ false → All (PairHolds pair) completions.now }
{
    for completion in completions {
        if !pair_holds(spec, completion, pair) {
            return true;
        }
    }
    false
}

// Do two of these completions differ in the current value at a place? They do where one differs from the
// first; at a place that is not there none does.
pub(crate) fn two_differ(
    spec: &Specification,
    completions: &[Completion],
    rel: RelId,
    attr: AttrId,
    ent: EntId,
) -> bool
    requires { All (IsCompletion spec.now.relations) completions.now }
    ensures differ { result ≡ true → TwoDiffer spec.now.relations rel attr ent completions.now }
    ensures same { result ≡ false → TwoDiffer spec.now.relations rel attr ent completions.now → ⊥ }
{
    if completions.len() == 0 {
        return false;
    }
    if !is_place(spec.relations(), rel, attr, ent) {
        return false;
    }
    one_differs(spec, completions, &completions[0], rel, attr, ent)
}

// Does one of these completions differ from this one in the current value at a place?
fn one_differs(
    spec: &Specification,
    completions: &[Completion],
    first: &Completion,
    rel: RelId,
    attr: AttrId,
    ent: EntId,
) -> bool
    requires completions { All (IsCompletion spec.now.relations) completions.now }
    requires first { IsCompletion spec.now.relations first.now }
    requires place { IsPlaceOf spec.now.relations rel.0 attr.0 ent.0 }
    ensures differs { result ≡ true → OneDiffers spec.now.relations rel attr ent first.now completions.now }
    ensures none { result ≡ false → All (AgreesAt spec.now.relations rel attr ent first.now) completions.now }
{
    let value = last(spec, first, rel, attr, ent);
    for completion in completions {
        if !value.test(Cmp::Eq, last(spec, completion, rel, attr, ent)) {
            return true;
        }
    }
    false
}

// Is there this attribute and this entity?
fn is_place(relations: &[Relation], rel: RelId, attr: AttrId, ent: EntId) -> bool
    ensures is { result ≡ true → IsPlaceOf relations.now rel.0 attr.0 ent.0 }
    ensures none { result ≡ false → IsPlaceOf relations.now rel.0 attr.0 ent.0 → ⊥ }
{
    match relations.get(rel.0 as usize) {
        Some(relation) => {
            (attr.0 as usize) < relation.attrs.len() && (ent.0 as usize) < relation.entities.len()
        }
        None => false,
    }
}
