ghost use Rattle.std.specs.Prelude.{◌≡◌, [], slice_index_or};
ghost use Rattle.std.specs.Cmp.Lexicographic.{slice_cmp};
ghost use Rattle.std.specs.Ordering.{is_lt};
ghost use Rattle.currency_base.specs.Values.{value_cmp};
ghost use Rattle.log_form.specs.Form.{is_below, is_above};

use currency_base::{Tuple, Value};
use refutation_log::Statement;
use std::cmp::Ordering;

/// Is the statement above the one before it, if there is one?
pub(crate) fn is_above(answers: &[Tuple], before: Option<Statement>, statement: Statement) -> bool
    ensures { result ≡ is_above answers.now before statement }
{
    match before {
        Some(before) => is_below(answers, before, statement),
        None => true,
    }
}

// Is one statement below another? Answers go by the order of their tuples.
fn is_below(answers: &[Tuple], one: Statement, other: Statement) -> bool
    ensures { result ≡ is_below answers.now one other }
{
    match (one, other) {
        (Statement::Answer { tuple: one }, Statement::Answer { tuple: other }) => {
            is_tuple_below(answers, one, other)
        }
        _ => one < other,
    }
}

// Is the tuple at one place below the one at another?
fn is_tuple_below(answers: &[Tuple], one: u32, other: u32) -> bool
    ensures { result ≡ is_lt (slice_cmp value_cmp (slice_index_or answers.now one []) (slice_index_or answers.now other [])) }
{
    values_at(answers, one).cmp(values_at(answers, other)) == Ordering::Less
}

// The values of the tuple at a place; none where no tuple is there.
fn values_at(answers: &[Tuple], place: u32) -> &[Value]
    ensures { result.now ≡ slice_index_or answers.now place [] }
{
    match answers.get(place as usize) {
        Some(tuple) => tuple.as_slice(),
        None => &[],
    }
}
