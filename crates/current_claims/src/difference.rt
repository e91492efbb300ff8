ghost use Rattle.std.specs.Prelude.{◌≡◌, ◌<◌, All, IfNone, IfSome, length};
ghost use Rattle.currency_base.specs.declared.ids.AttrId.{AttrId};
ghost use Rattle.currency_base.specs.declared.ids.EntId.{EntId};
ghost use Rattle.currency_base.specs.declared.ids.RelId.{RelId};
ghost use Rattle.current_tuples.specs.Places.{IsEntityOf};
ghost use Rattle.spec_model.specs.Completion.{IsCompletion};
ghost use Rattle.current_claims.specs.Claims.{IsDifference};
ghost use Rattle.current_claims.specs.Differing.{IsOfEntity, NoneOfEntity, NoneOfRelation};

use currency_base::{AttrId, Cmp, EntId, RelId};
use current_tuples::last;
use spec_model::{Completion, RelList, Specification};

/// An attribute of an entity.
#[derive(Clone, Copy, PartialEq, Eq)]
pub struct CurrentPlace {
    pub rel: RelId,
    pub attr: AttrId,
    pub ent: EntId,
}

/// The first place of asked relations at which two completions have different current values, if there is one, in the
/// order in which the relations are asked, then of entity and attribute. Takes no memory.
pub fn first_difference(
    spec: &Specification,
    rels: &RelList,
    first: &Completion,
    second: &Completion,
) -> Option<CurrentPlace>
    requires rels { All (λ rel. rel.0 < length spec.now.relations) rels.now }
    requires first { IsCompletion spec.now.relations first.now }
    requires second { IsCompletion spec.now.relations second.now }
    ensures some { IfSome result (λ p. IsDifference spec.now.relations rels.now first.now second.now p.rel p.attr p.ent) }
    ensures none { IfNone result ((rel : RelId) (attr : AttrId) (ent : EntId)
        → IsDifference spec.now.relations rels.now first.now second.now rel attr ent → ⊥) }
{
    for rel in rels.as_slice() {
        if let Some(place) = relation_difference(spec, *rel, first, second) {
            return Some(place);
        }
    }
    None
}

// The first place of a relation at which two completions differ, by entity and attribute.
fn relation_difference(
    spec: &Specification,
    rel: RelId,
    first: &Completion,
    second: &Completion,
) -> Option<CurrentPlace>
    requires rel { rel.0 < length spec.now.relations }
    requires first { IsCompletion spec.now.relations first.now }
    requires second { IsCompletion spec.now.relations second.now }
    ensures rel { IfSome result (λ p. p.rel ≡ rel) }
    ensures some { IfSome result (λ p. IsOfEntity spec.now.relations first.now second.now rel p.ent p.attr) }
    ensures none { IfNone result (NoneOfRelation spec.now.relations first.now second.now rel) }
{
    for ent in 0..spec.relations()[rel.0 as usize].entities.len() {
        let ent = EntId(ent as u32);
        if let Some(attr) = entity_difference(spec, rel, ent, first, second) {
            return Some(CurrentPlace { rel, attr, ent });
        }
    }
    None
}

// The first attribute of an entity at which two completions differ.
fn entity_difference(
    spec: &Specification,
    rel: RelId,
    ent: EntId,
    first: &Completion,
    second: &Completion,
) -> Option<AttrId>
    requires entity { IsEntityOf spec.now.relations rel.0 ent.0 }
    requires first { IsCompletion spec.now.relations first.now }
    requires second { IsCompletion spec.now.relations second.now }
    ensures some { IfSome result (IsOfEntity spec.now.relations first.now second.now rel ent) }
    ensures none { IfNone result (NoneOfEntity spec.now.relations first.now second.now rel ent) }
{
    for attr in 0..spec.relations()[rel.0 as usize].attrs.len() {
        let attr = AttrId(attr as u32);
        let one = last(spec, first, rel, attr, ent);
        let other = last(spec, second, rel, attr, ent);
        if one.test(Cmp::Ne, other) {
            return Some(attr);
        }
    }
    None
}
