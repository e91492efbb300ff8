ghost use Rattle.std.specs.Prelude.{◌≡◌, ◌∷◌, [], map, Contains, IfOk, Ok};
ghost use Rattle.std.specs.List.{zip, list_all};
ghost use Rattle.bind_faults.specs.Faults.{IsDue, IsReadFault, unless};
ghost use Rattle.spec_model.specs.Facts.{IsRelation};
ghost use Rattle.spec_names.specs.Names.{all_names_of, names_of};
ghost use Rattle.copy_bind.specs.Heads.{are_of_one_kind, head_of, is_of_one_kind, kind_at, matched, names_refused, places_of, side_of, side_with};
ghost use Rattle.copy_bind.specs.HeadFacts.{IsHeadAmong};

use crate::attrs::attrs_named;
use crate::repeated::{check_free, check_once};
use crate::side::CopySide;
use bind_faults::{BindFault, find};
use copy_functions::{Place, PlaceList};
use copy_syntax::CopyTree;
use currency_base::{AttrId, ErrorCode, RelId, ValueKind};
use name_index::NameIndex;
use spec_model::{Relation, Specification};
use spec_names::{RelationNames, SpecNames};
use std::alloc::{AllocError, Global};
use text_grammar::Named;

/// The head of a copy: its two sides, and the places at which their attributes stand side by side.
#[derive(Drop)]
pub struct CopyHead<'a> {
    pub target: CopySide<'a>,
    pub source: CopySide<'a>,
    pub places: PlaceList,
}

/// The head of a copy, or its first fault: names that are unknown, then names that stand twice, each in
/// the order of the text, and then attributes that do not match.
pub fn bind_head<'a>(
    alloc: Global,
    names: &'a SpecNames,
    spec: &'a Specification,
    tree: &CopyTree,
) -> Result<CopyHead<'a>, BindFault>
    requires { names.now ≡ all_names_of spec.now }
    ensures due { IsDue (head_of spec.now tree.now) result }
    ensures among { IfOk result (IsHeadAmong spec.now.relations) }
    ensures fresh { IfOk result (λ _. Contains (map (λ c. c.name) spec.now.copies) tree.now.name.name → ⊥) }
    ensures reads { IsReadFault result → ⊥ }
{
    let target = bind_side(
        alloc,
        names,
        spec,
        &tree.target,
        tree.target_attrs.as_slice(),
    )?;
    let source = bind_side(
        alloc,
        names,
        spec,
        &tree.source,
        tree.source_attrs.as_slice(),
    )?;
    check_names(alloc, names.copies(), tree)?;
    let places = matched(alloc, &tree.name, &target, &source)?;
    Ok(CopyHead {
        target,
        source,
        places,
    })
}

/// A side of a copy, or the refusal of the first of its names that is unknown.
fn bind_side<'a>(
    alloc: Global,
    names: &'a SpecNames,
    spec: &'a Specification,
    name: &Named,
    attrs: &[Named],
) -> Result<CopySide<'a>, BindFault>
    requires { names.now ≡ all_names_of spec.now }
    ensures { IsDue (side_of spec.now.relations name.now attrs.now) result }
{
    let place = find(names.relations(), name, ErrorCode::UnknownName)?;
    let relation = &spec.relations()[place];
    let parts = names.relation(place);
    side_with(alloc, RelId(place as u32), relation, parts, attrs)
}

/// The side of these attributes of a relation, or the refusal of the first that is unknown.
fn side_with<'a>(
    alloc: Global,
    id: RelId,
    relation: &'a Relation,
    names: &'a RelationNames,
    attrs: &[Named],
) -> Result<CopySide<'a>, BindFault>
    requires facts { IsRelation relation.now }
    requires names { names.now ≡ names_of relation.now }
    ensures { IsDue (side_with attrs.now id.0 relation.now) result }
{
    match attrs_named(alloc, &names.attrs, attrs) {
        Ok(attrs) => Ok(CopySide::new(id, relation, &names.rows, attrs)),
        Err(fault) => Err(fault),
    }
}

/// Refuses the name of a copy that is taken, and then an attribute that is listed twice.
#[tactic(auto, unfolding(crate::specs::Heads::names_refused))]
fn check_names(alloc: Global, copies: &NameIndex, tree: &CopyTree) -> Result<(), BindFault>
    ensures { IsDue (unless (names_refused copies.now tree.now) (Ok tt)) result }
{
    check_free(copies, &tree.name)?;
    check_once(alloc, tree.target_attrs.as_slice())?;
    check_once(alloc, tree.source_attrs.as_slice())
}

/// The places of two sides, whose attributes have to match.
#[tactic(auto, unfolding(crate::specs::Heads::matched))]
fn matched(
    alloc: Global,
    name: &Named,
    target: &CopySide,
    source: &CopySide,
) -> Result<PlaceList, BindFault>
    ensures { IsDue (matched name.now target.now source.now) result }
{
    if target.attrs().len() != source.attrs().len() {
        return Err(BindFault::at(ErrorCode::Mismatch, name));
    }
    let Ok(places) = places_of(alloc, target.attrs(), source.attrs()) else {
        return Err(BindFault::NoMemory);
    };
    if are_of_one_kind(target.relation(), source.relation(), places.as_slice()) {
        Ok(PlaceList::from_items(places))
    } else {
        Err(BindFault::at(ErrorCode::Mismatch, name))
    }
}

/// The attributes of two lists that stand side by side.
fn places_of(alloc: Global, target: &[AttrId], source: &[AttrId]) -> Result<Vec<Place>, AllocError>
    ensures { IfOk result (λ places. places.items ≡ places_of target.now source.now) }
{
    target
        .iter()
        .zip(source)
        .map(|(target, source)| Place {
            target: *target,
            source: *source,
        })
        .collect(alloc)
}

/// Are the attributes of each place of one kind?
fn are_of_one_kind(target: &Relation, source: &Relation, places: &[Place]) -> bool
    ensures { result ≡ are_of_one_kind target.now source.now places.now }
{
    places
        .iter()
        .all(|place| is_of_one_kind(target, source, place))
}

/// Are the attributes of a place of one kind?
fn is_of_one_kind(target: &Relation, source: &Relation, place: &Place) -> bool
    ensures { result ≡ is_of_one_kind target.now source.now place.now }
{
    match (kind_at(target, place.target), kind_at(source, place.source)) {
        (Some(ValueKind::Text), Some(ValueKind::Text)) => true,
        (Some(ValueKind::Int), Some(ValueKind::Int)) => true,
        _ => false,
    }
}

/// The kind of an attribute, where it is there.
fn kind_at(relation: &Relation, attr: AttrId) -> Option<ValueKind>
    ensures { result ≡ kind_at relation.now attr }
{
    let attr = relation.attrs.as_slice().get(attr.0 as usize)?;
    Some(attr.kind)
}
