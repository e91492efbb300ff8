// The values that a head and its tuple give variables.

ghost use Rattle.std.specs.Prelude.{◌≡◌, option_map};
ghost use Rattle.unit_questions.specs.Substituted.{fits_head, given_value, is_value, left_number};

use currency_base::{Cmp, Value};

/// The value of a variable: that at its first place in the head.
pub(crate) fn given_value<'a>(head: &[u32], tuple: &'a [Value], var: u32) -> Option<&'a Value>
    ensures { option_map (λ x. x.now) result ≡ given_value head.now tuple.now var }
{
    for place in 0..head.len() {
        if place >= tuple.len() {
            return None;
        }
        if head[place] == var {
            return Some(&tuple[place]);
        }
    }
    None
}

/// The number of a variable among those that have no value.
pub(crate) fn left_number(head: &[u32], tuple: &[Value], vars: u32) -> u32
    ensures { result ≡ left_number (given_value head.now tuple.now) vars }
{
    let mut number = 0;
    for var in 0..vars {
        if given_value(head, tuple, var).is_none() {
            number += 1;
        }
    }
    number
}

/// Does the tuple fit the head? It has as many values, and one value for each variable.
pub(crate) fn fits_head(head: &[u32], tuple: &[Value]) -> bool
    ensures { result ≡ fits_head (given_value head.now tuple.now) head.now tuple.now }
{
    if head.len() != tuple.len() {
        return false;
    }
    for place in 0..head.len() {
        if !is_value(head, tuple, &tuple[place], head[place]) {
            return false;
        }
    }
    true
}

/// Is the value that of the variable?
fn is_value(head: &[u32], tuple: &[Value], value: &Value, var: u32) -> bool
    ensures { result ≡ is_value value.now (given_value head.now tuple.now var) }
{
    match given_value(head, tuple, var) {
        Some(given) => given.test(Cmp::Eq, value),
        None => false,
    }
}
