ghost use Rattle.std.specs.Prelude.{◌≡◌, ◌<◌, ◌^◌, ◌++◌, ◌∷◌, [], All, IfOk, OnOk, if◌then◌else◌, length, map, slice_index_or};
ghost use Rattle.answer_candidates.specs.Candidates.{LeftAreCommon, left_of};

use currency_base::{ItemList, NoMemory, TupleList};
use std::alloc::Global;

/// Places of tuples, ascending.
pub type PlaceList = ItemList<u32>;

/// A law: the tuples that are not gone are exactly the answers that the listed completions have in common, and ascend.
pub fn left_are_common()
    ensures { LeftAreCommon }
{}

// The places of the tuples that are not gone.
pub(crate) fn left(alloc: Global, gone: &[bool]) -> Result<PlaceList, NoMemory>
    requires { length gone.now < 2 ^ 32 }
    ensures { IfOk result (λ places. places ≡ left_of gone.now) }
{
    let mut places = PlaceList::new(alloc);
    for place in 0..gone.len() {
        match push_if(&mut places, place as u32, !gone[place]) {
            Ok(()) => {}
            Err(error) => return Err(error),
        }
    }
    Ok(places)
}

// Puts a place after the others, if it is wanted.
fn push_if(places: &mut PlaceList, place: u32, wanted: bool) -> Result<(), NoMemory>
    ensures { OnOk result (places.new ≡ places.old ++ (if wanted then place ∷ [] else [])) }
{
    if wanted {
        return places.push(place);
    }
    Ok(())
}

// The tuples at these places.
#[tactic(auto, using(crate::proofs::Growing::place_within))]
pub(crate) fn tuples_at(
    alloc: Global,
    tuples: &TupleList,
    places: &PlaceList,
) -> Result<TupleList, NoMemory>
    requires { All (λ place. place < length tuples.now) places.now }
    ensures { IfOk result (λ found. found ≡ map (λ place. slice_index_or tuples.now place []) places.now) }
{
    let mut found = TupleList::new(alloc);
    for at in 0..places.len() {
        let copy = match tuples.get(*places.get(at) as usize).duplicate(alloc) {
            Ok(copy) => copy,
            Err(error) => return Err(error),
        };
        match found.push(copy) {
            Ok(()) => {}
            Err(error) => return Err(error),
        }
    }
    Ok(found)
}

// Equal tuples.
pub(crate) fn copied(alloc: Global, tuples: &TupleList) -> Result<TupleList, NoMemory>
    ensures { IfOk result (λ copy. copy ≡ tuples.now) }
{
    let mut copy = TupleList::new(alloc);
    for place in 0..tuples.len() {
        let tuple = match tuples.get(place).duplicate(alloc) {
            Ok(tuple) => tuple,
            Err(error) => return Err(error),
        };
        match copy.push(tuple) {
            Ok(()) => {}
            Err(error) => return Err(error),
        }
    }
    Ok(copy)
}
