ghost use Rattle.std.specs.Prelude.{◌≡◌, ◌<◌, ◌^◌, length, option_map, slice_get};
ghost use Rattle.copy_functions.specs.Faults.{differing, first_difference, IsDifference};

use crate::{CopyFault, Place};
use currency_base::{Cmp, Value};
use std::alloc::Global;

/// A place, by its number, at which two rows have different values.
#[derive(Clone, Copy)]
pub(crate) struct Difference<'a> {
    pub place: u32,
    pub target: &'a Value,
    pub source: &'a Value,
}

impl Difference<'_> {
    /// The fault that tells of the difference, with values of its own.
    pub(crate) fn fault(&self, alloc: Global) -> CopyFault
        ensures { IsDifference self.now.place self.now.target.now self.now.source.now result }
    {
        let Ok(target) = self.target.duplicate(alloc) else {
            return CopyFault::NoMemory;
        };
        let Ok(source) = self.source.duplicate(alloc) else {
            return CopyFault::NoMemory;
        };
        CopyFault::CopyDiffers {
            place: self.place,
            target,
            source,
        }
    }
}

/// The first place at which the values of two rows differ. Takes no memory.
pub(crate) fn first_difference<'a>(
    places: &[Place],
    target: &'a [Value],
    source: &'a [Value],
) -> Option<Difference<'a>>
    requires { length places.now < 2 ^ 32 }
    ensures { option_map (λ d. (d.place, d.target.now, d.source.now)) result ≡ first_difference 0 places.now
        target.now source.now }
{
    for (at, place) in places.iter().enumerate() {
        if let Some((a, b)) = values_that_differ(place, target, source) {
            return Some(Difference {
                place: at as u32,
                target: a,
                source: b,
            });
        }
    }
    None
}

// The values at a place, where they differ.
fn values_that_differ<'a>(
    place: &Place,
    target: &'a [Value],
    source: &'a [Value],
) -> Option<(&'a Value, &'a Value)>
    ensures { option_map (λ v. (v.0.now, v.1.now)) result ≡ differing (slice_get target.now place.now.target.0)
        (slice_get source.now place.now.source.0) }
{
    let a = target.get(place.target.0 as usize)?;
    let b = source.get(place.source.0 as usize)?;
    if a.test(Cmp::Eq, b) {
        return None;
    }
    Some((a, b))
}
