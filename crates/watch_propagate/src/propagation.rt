ghost use Rattle.std.specs.Prelude.{◌≡◌, ◌<◌, ◌≤◌, ◌*◌, ℕ, Contains, Some, None, length, option_map, slice_get, IfSome, IfNone};
ghost use Rattle.currency_base.specs.Literals.{negation, var_of};
ghost use Rattle.watch_links.specs.Links.{IsIn, coming_after};
ghost use Rattle.currency_base.specs.declared.lit.Lit.{Lit};
ghost use Rattle.clause_arena.specs.Arenas.{watchers_of};
ghost use Rattle.search_trail.specs.Trails.{lits_of};
ghost use Rattle.watch_propagate.specs.Walks.{GoesOff, GoesOn, IsPending, IsSeenTo, KeepsOthers, SeesTo};
ghost use Rattle.watch_propagate.specs.WatchRule.{AreAtRest, IsConflict, IsRewatched, Implies, KeepsWatch};
ghost use Rattle.watch_propagate.specs.declared.propagation.Look.TheVariants.{Fails, Leaves, Stays};

use crate::truths::{is_false, truth};
use clause_arena::{Arena, ClauseNo};
use currency_base::Lit;
use search_trail::Trail;

/// Unit propagation over the watched clauses (Moskewicz, Madigan, Zhao, Zhang, Malik: Chaff, 2001). Makes each
/// literal true that is implied by a clause whose other literals are false, and so on, at the current level. Answers
/// a watched clause whose literals are all false, where there is one; where there is none each watched clause has a
/// true literal or two open ones. It goes through the watchers of false literals alone, and takes no memory.
pub fn propagate(arena: &mut Arena, trail: &mut Trail) -> Option<ClauseNo>
    requires fits { length arena.old.watchers ≡ 2 * trail.old.vars }
    requires rule { KeepsWatch arena.old trail.old }
    ensures rewatched { IsRewatched arena.old arena.new }
    ensures implies { Implies arena.new trail.old trail.new }
    ensures rule { KeepsWatch arena.new trail.new }
    ensures conflict { IfSome result (λ clause. IsConflict arena.new (lits_of trail.new) clause.0) }
    ensures gone { IfNone result (trail.new.gone ≡ length trail.new.entries) }
    ensures at_rest { IfNone result (AreAtRest arena.new (lits_of trail.new)) }
{
    while let Some(lit) = trail.pending() {
        trail.are_entries();
        if let Some(conflict) = go_through(arena, trail, lit.negated()) {
            return Some(conflict);
        }
        trail.pass();
    }
    arena.are_watchers();
    trail.are_entries();
    None
}

// Goes through the clauses that watch a literal, which has become false; answers one whose literals are all false.
fn go_through(arena: &mut Arena, trail: &mut Trail, lit: Lit) -> Option<ClauseNo>
    requires fits { length arena.old.watchers ≡ 2 * trail.old.vars }
    requires rule { KeepsWatch arena.old trail.old }
    requires within { var_of lit < trail.old.vars }
    requires pending { IsPending trail.old lit }
    ensures goes { GoesOn arena.old arena.new trail.old trail.new }
    ensures conflict { IfSome result (λ clause. IsConflict arena.new (lits_of trail.new) clause.0) }
    ensures all { IfNone result ((clause : ℕ) → IsIn clause (watchers_of arena.new lit) → IsSeenTo arena.new
        trail.new lit clause) }
{
    let mut before = None;
    let mut at = arena.first_watcher(lit);
    while let Some(clause) = at {
        arena.are_watchers();
        at = arena.next_watcher(lit, clause);
        match look_at(arena, trail, before, clause, lit) {
            Look::Stays => before = Some(clause),
            Look::Leaves => {}
            Look::Fails => return Some(clause),
        }
    }
    None
}

// What a look at a clause that watches a false literal came to.
#[derive(Clone, Copy)]
enum Look {
    // It watches the literal still, and the other literal that it watches is true.
    Stays,
    // It watches another literal in its place.
    Leaves,
    // All its literals are false.
    Fails,
}

// Looks at one clause that watches a false literal, behind the one before it, if there is one. Where the other watched literal is
// true, it reads the clause's head alone, and else its literals from the third on. It moves the watch to a literal that is not
// false, or else makes the other watched literal true, if that one is open.
fn look_at(
    arena: &mut Arena,
    trail: &mut Trail,
    before: Option<ClauseNo>,
    clause: ClauseNo,
    lit: Lit,
) -> Look
    requires fits { length arena.old.watchers ≡ 2 * trail.old.vars }
    requires rule { KeepsWatch arena.old trail.old }
    requires comes { coming_after (option_map (λ no. no.0) before) (watchers_of arena.old lit) ≡ Some clause.0 }
    requires is_false { Contains (lits_of trail.old) (negation lit) }
    ensures goes { GoesOn arena.old arena.new trail.old trail.new }
    ensures others { KeepsOthers arena.old arena.new trail.old trail.new lit clause.0 }
    ensures stays { result ≡ Stays → SeesTo arena.old arena.new trail.new lit clause.0 }
    ensures leaves { result ≡ Leaves → GoesOff arena.old arena.new lit clause.0 }
    ensures fails { result ≡ Fails → IsConflict arena.new (lits_of trail.new) clause.0 }
{
    arena.are_watchers();
    trail.are_entries();
    let from = arena.side(lit, clause);
    let other = arena.watched(clause, 1 - from);
    let known = truth(trail, other);
    if known == Some(true) {
        return Look::Stays;
    }
    if let Some(to) = not_false(trail, arena.lits(clause)) {
        arena.move_watch(before, clause, from, to);
        return Look::Leaves;
    }
    if known == Some(false) {
        return Look::Fails;
    }
    trail.imply(arena, other, clause);
    Look::Stays
}

// The first place of a clause, from the third on, whose literal is not false.
fn not_false(trail: &Trail, lits: &[Lit]) -> Option<usize>
    requires { (k : ℕ) (x : Lit) → slice_get lits.now k ≡ Some x → var_of x < trail.now.vars }
    ensures later { IfSome result (λ place. 2 ≤ place) }
    ensures within { IfSome result (λ place. place < length lits.now) }
    ensures found { IfSome result (λ place. (x : Lit) → slice_get lits.now place ≡ Some x
        → Contains (lits_of trail.now) (negation x) → ⊥) }
    ensures none { IfNone result ((k : ℕ) (x : Lit) → 2 ≤ k → slice_get lits.now k ≡ Some x
        → Contains (lits_of trail.now) (negation x)) }
{
    for place in 2..lits.len() {
        if !is_false(trail, lits[place]) {
            return Some(place);
        }
    }
    None
}
