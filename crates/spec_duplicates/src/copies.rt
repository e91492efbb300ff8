ghost use Rattle.std.specs.Prelude.{◌≡◌, true, [], is_ok, IfOk, OnOk};

use copy_functions::{CopyFault, CopyMap, PlaceList};
use currency_base::NoMemory;
use std::alloc::Global;

/// The copy function with no row mapped.
pub fn unmapped(alloc: Global, copy: &CopyMap) -> Result<CopyMap, NoMemory>
    ensures { IfOk result (λ new. new ≡ record copy.now { sources = [] }) }
{
    let name = copy.name().duplicate(alloc)?;
    let places = copied_places(alloc, copy.places())?;
    Ok(CopyMap::new(alloc, name, copy.target(), copy.source(), places))
}

/// The places, copied.
fn copied_places(alloc: Global, places: &PlaceList) -> Result<PlaceList, NoMemory>
    ensures { IfOk result (λ copy. copy ≡ places.now) }
{
    let mut list = PlaceList::new(alloc);
    for place in places.as_slice() {
        list.push(*place)?;
    }
    Ok(list)
}

/// What maps a row that is mapped already in the copy function that is copied, to a row of equal values, can only want memory.
pub fn or_no_memory(outcome: Result<(), CopyFault>) -> Result<(), NoMemory>
    ensures { OnOk result (is_ok outcome ≡ true) }
{
    match outcome {
        Ok(()) => Ok(()),
        Err(_) => Err(NoMemory),
    }
}
