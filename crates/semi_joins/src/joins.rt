ghost use Rattle.std.specs.Prelude.{◌≡◌, true, IfOk};
ghost use Rattle.semi_joins.specs.Kept.{IsJoined, Keeps, is_kept, is_key, key_at};

use crate::kept::Kept;
use crate::keys::KeySet;
use crate::links::Links;
use currency_base::{NoMemory, Tuple};
use std::alloc::Global;

/// Of each of some rows, whether it is kept still: if it was, and one of the others that are kept has the values there
/// that it has here.
pub(crate) fn with_partner<'a, 'b>(
    alloc: Global,
    rows: &'a [Tuple],
    old: &Kept,
    others: &'a [Tuple],
    theirs: &Kept,
    links: &'b Links,
) -> Result<Kept, NoMemory>
    ensures { IfOk result (Keeps (IsJoined old.now others.now theirs.now links.now.here.items links.now.there.items) rows.now) }
{
    let keys = KeySet::of(alloc, others, theirs, &links.there)?;
    let mut kept = Kept::new(alloc);
    for (place, row) in rows.iter().enumerate() {
        kept.push(is_joined(old, place, &keys, row, &links.here))?;
    }
    Ok(kept)
}

// Was the row of a place kept, and are its values among some?
fn is_joined<'a, 'b>(
    old: &Kept,
    place: usize,
    keys: &KeySet<'a, 'b>,
    row: &'a Tuple,
    here: &'b [usize],
) -> bool
    ensures { is_kept old.now place ≡ true → is_key keys.now (key_at here.now row.now) ≡ true → result ≡ true }
{
    old.has(place) && keys.has(row, here)
}
