ghost use Rattle.std.specs.Prelude.{◌≡◌, All, nat_lt, true};
ghost use Rattle.std.specs.List.{list_all};
ghost use Rattle.refutation_log.specs.Writable.{AreFew, IsWritableLabel};
ghost use Rattle.refutation_log.specs.declared.step.Label.TheVariants as label;
ghost use Rattle.currency_base.specs.Values.{IsValue};

use currency_base::{EntId, TupleList, Value};
use query_model::Match;

// The most items of a list in a text.
const MOST_ITEMS: usize = 4_294_967_294;

/// Can the label of a match be written?
pub(crate) fn is_writable(m: &Match) -> bool
    ensures { result ≡ true → IsWritableLabel (label.Match m.now.disjunct m.now.entities m.now.values) }
{
    are_values(m.values.as_slice());
    m.disjunct < u32::MAX
        && m.entities.len() <= MOST_ITEMS
        && m.values.len() <= MOST_ITEMS
        && are_places(m.entities.as_slice())
}

/// Can each value of tuples be written?
pub(crate) fn are_writable(tuples: &TupleList) -> bool
    ensures { result ≡ true → All (AreFew IsValue) tuples.now }
{
    for place in 0..tuples.len() {
        if !is_tuple(tuples.get(place).as_slice()) {
            return false;
        }
    }
    true
}

// Are the values of a tuple few enough?
fn is_tuple(values: &[Value]) -> bool
    ensures { result ≡ true → AreFew IsValue values.now }
{
    are_values(values);
    values.len() <= MOST_ITEMS
}

// Has each entity a number when it is counted from 1?
fn are_places(entities: &[EntId]) -> bool
    ensures { result ≡ list_all (λ entity. nat_lt entity.0 4294967295) entities.now }
{
    entities.iter().all(|entity| entity.0 < u32::MAX)
}

// A law: values can be written, since their texts are `Name`s.
fn are_values(values: &[Value])
    ensures { All IsValue values.now }
{
    for value in values {
        is_value(value);
    }
}

// A law: a value can be written.
fn is_value(value: &Value)
    ensures { IsValue value.now }
{
    match value {
        Value::Int(number) => {
            let _number = *number;
        }
        Value::Text(name) => {
            let _ = name.bytes();
        }
    }
}
