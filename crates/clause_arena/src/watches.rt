ghost use Rattle.std.specs.Prelude.{◌≡◌, ◌+◌, ◌<◌, ◌≤◌, ◌*◌, All, Some, List, length, slice_get, slice_set, option_map, IfSome, OnOk, OnErr, IsOk};
ghost use Rattle.currency_base.specs.declared.lit.Lit.{Lit};
ghost use Rattle.watch_links.specs.Links.{IsIn, list_of};
ghost use Rattle.clause_arena.specs.Arenas.{place_of};
ghost use Rattle.clause_arena.specs.Slots.{IsWatching, clause_of, linking};

use crate::ClauseNo;
use crate::clause_lits::ClauseLits;
use currency_base::{Lit, NoMemory};
use watch_links::WatchLinks;

/// The owner of a literal's watch list: the literal's place.
pub(crate) fn owner_of(lit: Lit) -> u32
    ensures { result ≡ place_of lit }
{
    lit.index() as u32
}

/// The slots of one more clause: in front of the lists of its first literal and of its second; in none, where
/// it has fewer literals.
pub(crate) fn push_links(links: &mut WatchLinks, lits: &[Lit]) -> Result<(), NoMemory>
    requires { All (λ lit. place_of lit < length links.old.lists) lits.now }
    ensures slots { OnOk result (links.new.slots ≡ links.old.slots + 2) }
    ensures lists { OnOk result (links.new.lists ≡ linking links.old.lists lits.now links.old.slots) }
    ensures room { 0 < links.old.room → IsOk result }
    ensures left { OnOk result (links.old.room ≤ links.new.room + 1) }
    ensures err { OnErr result (links.new ≡ links.old) }
{
    match lits {
        [first, second, ..] => links.push_two(owner_of(*first), owner_of(*second)),
        _ => links.push_none(),
    }
}

/// The clause of a slot.
pub(crate) fn clause_at(slot: Option<u32>) -> Option<ClauseNo>
    ensures { option_map (λ no. no.0) result ≡ option_map clause_of slot }
{
    match slot {
        Some(slot) => Some(ClauseNo(slot / 2)),
        None => None,
    }
}

/// Two literals of a clause change places.
pub(crate) fn exchange(clauses: &mut ClauseLits, clause: usize, from: usize, to: usize)
    requires clause { clause < length clauses.old.lists }
    requires from { IfSome (slice_get clauses.old.lists clause) (λ lits. from < length lits) }
    requires to { IfSome (slice_get clauses.old.lists clause) (λ lits. to < length lits) }
    ensures lists { (lits : List Lit) (left taken : Lit) → slice_get clauses.old.lists clause ≡ Some lits
        → slice_get lits from ≡ Some left → slice_get lits to ≡ Some taken
        → clauses.new.lists ≡ slice_set clauses.old.lists clause (slice_set (slice_set lits from taken) to left) }
    ensures lists_left { clauses.new.lists_left ≡ clauses.old.lists_left }
    ensures lits_left { clauses.new.lits_left ≡ clauses.old.lits_left }
{
    let lits = clauses.get(clause);
    let left = lits[from];
    let taken = lits[to];
    clauses.set(clause, from, taken);
    clauses.set(clause, to, left);
}

/// The slot by which a clause watches its first literal (side 0) or its second (side 1).
pub(crate) fn slot_of(clause: ClauseNo, side: usize) -> u32
    requires { 2 * clause.0 + side ≤ 4294967295 }
    ensures { result ≡ 2 * clause.0 + side }
{
    2 * clause.0 + side as u32
}

/// The literal of an owner of slots.
pub(crate) fn lit_of(owner: u32) -> Lit
    ensures { place_of result ≡ owner }
{
    Lit::new(owner / 2, owner % 2 == 1)
}

/// By which side a clause watches a literal. Reads the clause's head alone.
pub(crate) fn side_by(links: &WatchLinks, clause: ClauseNo, lit: Lit) -> usize
    requires { IsWatching links.now.lists (place_of lit) clause.0 }
    ensures low { result < 2 }
    ensures here { IsIn (2 * clause.0 + result) (list_of links.now.lists (place_of lit)) }
{
    links.are_whole();
    if links.owner(slot_of(clause, 0)) == owner_of(lit) {
        0
    } else {
        1
    }
}

/// The slot by which a clause watches a literal, where there is a clause.
pub(crate) fn slot_by(links: &WatchLinks, clause: Option<ClauseNo>, lit: Lit) -> Option<u32>
    requires { IfSome clause (λ no. IsWatching links.now.lists (place_of lit) no.0) }
    ensures clause { option_map clause_of result ≡ option_map (λ no. no.0) clause }
    ensures stands { IfSome result (λ slot. IsIn slot (list_of links.now.lists (place_of lit))) }
{
    let Some(clause) = clause else {
        return None;
    };
    links.are_whole();
    Some(slot_of(clause, side_by(links, clause, lit)))
}
