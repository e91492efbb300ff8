// Pairs that are asked about.

ghost use Rattle.std.specs.Prelude.{◌≡◌, ◌<◌, ◌^◌, ◌++◌, length, All, IfOk};
ghost use Rattle.question_bind.specs.Asked.{all_asked, asked_pairs};
ghost use Rattle.question_bind.specs.Steps.{asked_each};

use crate::heads::Head;
use crate::pairs::PairLists;
use currency_base::{NoMemory, Pair, RelId};
use spec_model::{Asked, AskedList};

/// What was asked about so far, and the pairs of the parts.
pub fn asked_after(
    so_far: AskedList,
    heads: &[Head],
    lists: &PairLists,
) -> Result<AskedList, NoMemory>
    requires heads { All (λ h. h.rel < 2 ^ 32) heads.now }
    requires lists { length lists.now ≡ length heads.now }
    ensures { IfOk result (λ asked. asked ≡ so_far ++ all_asked (asked_each heads.now lists.now)) }
{
    let mut asked = so_far;
    for (place, head) in heads.iter().enumerate() {
        let rel = RelId(head.rel as u32);
        asked = match ask_pairs(asked, rel, lists.get(place).as_slice()) {
            Ok(more) => more,
            Err(fault) => return Err(fault),
        };
    }
    Ok(asked)
}

/// What was asked about so far, and these pairs of a relation.
fn ask_pairs(so_far: AskedList, rel: RelId, pairs: &[Pair]) -> Result<AskedList, NoMemory>
    ensures { IfOk result (λ asked. asked ≡ so_far ++ asked_pairs rel.0 pairs.now) }
{
    let mut asked = so_far;
    for pair in pairs {
        asked.push(Asked { rel, pair: *pair })?;
    }
    Ok(asked)
}
