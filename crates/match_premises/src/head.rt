ghost use Rattle.std.specs.Prelude.{◌≡◌, Some, [], IfOk, option_map, slice_get};
ghost use Rattle.match_premises.specs.Premises.{tuple_from};

use currency_base::{NoMemory, Tuple, Value};
use std::alloc::Global;

/// The values of variables, one after another; nothing where one has no value.
pub fn head_tuple(alloc: Global, values: &[Value], head: &[u32]) -> Result<Option<Tuple>, NoMemory>
    ensures { IfOk result (λ found. found ≡ tuple_from values.now (Some []) head.now) }
{
    let mut tuple = Tuple::new(alloc);
    for var in head {
        let Some(value) = value_of(values, *var) else {
            return Ok(None);
        };
        match value.duplicate(alloc) {
            Ok(copy) => match tuple.push(copy) {
                Ok(()) => {}
                Err(error) => return Err(error),
            },
            Err(error) => return Err(error),
        }
    }
    Ok(Some(tuple))
}

// The value of a variable, if it has one.
fn value_of(values: &[Value], var: u32) -> Option<&Value>
    ensures { option_map (λ v. v.now) result ≡ slice_get values.now var }
{
    values.get(var as usize)
}
