ghost use Rattle.std.specs.Prelude.{◌≡◌, ◌<◌, length, IfOk, IfSome};
ghost use Rattle.currency_base.specs.Literals.{var_of};
ghost use Rattle.order_start.specs.Lists.{HasTruths};

use crate::listed::Listed;
use crate::order::Order;
use currency_base::{Assignment, Lit, NoMemory};

/// Gives the pairs of a list their truths by a ranking; the place of the row that stands last, if there is a row. The
/// ranking is the order of the rows, unless a known pair stands against it and the known pairs do not go round.
pub(crate) fn rank_list(
    list: &Listed<'_>,
    order: &mut Order,
    guess: &mut Assignment,
) -> Result<Option<usize>, NoMemory>
    requires { HasTruths list.now guess.old }
    ensures truths { length guess.new ≡ length guess.old }
    ensures last { IfOk result (λ last. IfSome last (λ place. place < length list.now.rows)) }
{
    if put_rows(list, guess) {
        if let Some(last) = order.rank(list)? {
            put_ranks(list, order.ranks.as_slice(), guess);
            return Ok(Some(last));
        }
    }
    Ok(list.len().checked_sub(1))
}

// Ranks the rows in their own order; tells whether a known pair stands against it.
fn put_rows(list: &Listed<'_>, guess: &mut Assignment) -> bool
    requires { HasTruths list.now guess.old }
    ensures { length guess.new ≡ length guess.old }
{
    let mut against = false;
    for place in 0..list.len() {
        against |= put_behind(list, place, guess);
    }
    against
}

// Puts a row behind those at the places below; tells whether it is known to stand before one of them.
fn put_behind(list: &Listed<'_>, place: usize, guess: &mut Assignment) -> bool
    requires place { place < length list.now.rows }
    requires truths { HasTruths list.now guess.old }
    ensures { length guess.new ≡ length guess.old }
{
    let mut against = false;
    for other in 0..place {
        let lit = list.before(other, place);
        against |= list.value(lit) == Some(false);
        make_true(guess, lit);
    }
    against
}

// Gives the pairs their truths by the ranks of the rows.
fn put_ranks(list: &Listed<'_>, ranks: &[Option<usize>], guess: &mut Assignment)
    requires ranks { length ranks.now ≡ length list.now.rows }
    requires truths { HasTruths list.now guess.old }
    ensures { length guess.new ≡ length guess.old }
{
    for place in 0..list.len() {
        put_row(list, ranks, place, guess);
    }
}

// Gives the pairs of a row with those at the places below their truths by the ranks.
fn put_row(list: &Listed<'_>, ranks: &[Option<usize>], place: usize, guess: &mut Assignment)
    requires place { place < length list.now.rows }
    requires ranks { length ranks.now ≡ length list.now.rows }
    requires truths { HasTruths list.now guess.old }
    ensures { length guess.new ≡ length guess.old }
{
    for other in 0..place {
        let lit = if ranks[other] < ranks[place] {
            list.before(other, place)
        } else {
            list.before(place, other)
        };
        make_true(guess, lit);
    }
}

/// Makes a literal true.
pub(crate) fn make_true(guess: &mut Assignment, lit: Lit)
    requires { var_of lit < length guess.old }
    ensures { length guess.new ≡ length guess.old }
{
    guess.set(lit.var(), !lit.negative());
}
