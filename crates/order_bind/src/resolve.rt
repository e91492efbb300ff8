ghost use Rattle.std.specs.Prelude.{◌≡◌, ◌<◌, ◌^◌, length, map, not, position, Ok};
ghost use Rattle.bind_faults.specs.Faults.{IsDue, all_of};
ghost use Rattle.order_bind.specs.Orders.{pair_named, is_of_one_entity, checked_pairs};

use bind_faults::{BindFault, find};
use currency_base::{AttrId, ErrorCode, Pair, PairList, Row, RowId};
use name_index::NameIndex;
use std::alloc::Global;
use text_grammar::{Named, NamedPair};

/// The pair that two names of rows say.
pub fn resolve_pair(rows: &NameIndex, attr: AttrId, pair: &NamedPair) -> Result<Pair, BindFault>
    requires { length rows.now < 2 ^ 32 }
    ensures { result ≡ pair_named rows.now attr.0 pair.now }
{
    let earlier = find(rows, &pair.first, ErrorCode::UnknownRow)?;
    let later = find(rows, &pair.second, ErrorCode::UnknownRow)?;
    Ok(Pair {
        attr,
        earlier: RowId(earlier as u32),
        later: RowId(later as u32),
    })
}

/// The pairs that pairs of names say, or the refusal of the first name that no row has.
pub fn resolve_all(
    alloc: Global,
    rows: &NameIndex,
    attr: AttrId,
    pairs: &[NamedPair],
) -> Result<PairList, BindFault>
    requires { length rows.now < 2 ^ 32 }
    ensures { IsDue (all_of (pair_named rows.now attr.0) pairs.now) result }
{
    let mut list = PairList::new(alloc);
    for pair in pairs {
        match resolve_pair(rows, attr, pair) {
            Ok(resolved) => {
                let Ok(()) = list.push(resolved) else {
                    return Err(BindFault::NoMemory);
                };
            }
            Err(fault) => return Err(fault),
        }
    }
    Ok(list)
}

/// Is the pair of two different rows of one entity?
pub fn is_of_one_entity(rows: &[Row], pair: &Pair) -> bool
    ensures { result ≡ is_of_one_entity rows.now pair.now }
{
    if pair.earlier == pair.later {
        return false;
    }
    let earlier = rows.get(pair.earlier.0 as usize);
    let later = rows.get(pair.later.0 as usize);
    match (earlier, later) {
        (Some(a), Some(b)) => a.entity == b.entity,
        _ => false,
    }
}

/// The place of the first pair that is not of two different rows of one entity.
pub fn first_wrong(rows: &[Row], pairs: &[Pair]) -> Option<usize>
    ensures { result ≡ position (λ p. not (is_of_one_entity rows.now p)) pairs.now }
{
    pairs.iter().position(|pair| !is_of_one_entity(rows, pair))
}

/// The pairs, unless one of them is not of two different rows of one entity: the first such pair is
/// refused.
pub fn checked(rows: &[Row], named: &[NamedPair], pairs: PairList) -> Result<PairList, BindFault>
    requires { length pairs ≡ length named.now }
    ensures { result ≡ checked_pairs rows.now named.now (Ok pairs) }
{
    match first_wrong(rows, pairs.as_slice()) {
        None => Ok(pairs),
        Some(wrong) => Err(BindFault::at(ErrorCode::NotOneEntity, &named[wrong].first)),
    }
}
