ghost use Rattle.std.specs.Prelude.{◌≡◌};
ghost use Rattle.possible_answers.specs.Distinct.{is_among};
ghost use Rattle.query_model.specs.Answers.{AreAscending};

use currency_base::{Tuple, TupleList, laws_of_tuple_order};

/// Is the tuple one of these, which ascend? Looks at the logarithm of them.
pub fn is_among(tuples: &TupleList, tuple: &Tuple) -> bool
    requires { AreAscending tuples.now }
    ensures { result ≡ is_among tuples.now tuple.now }
{
    laws_of_tuple_order();
    tuples
        .as_slice()
        .binary_search_by(|other| other.order(tuple))
        .is_ok()
}
