ghost use Rattle.std.specs.Prelude.{◌≡◌, ◌⊎◌, ◌<◌, ◌≤◌, ℕ, All, Contains, Some, None, true, false, length, slice_get, IfSome, IfNone};
ghost use Rattle.currency_base.specs.Lists.{OnlyOnce};
ghost use Rattle.currency_base.specs.Literals.{negation, var_of};
ghost use Rattle.currency_base.specs.declared.lit.Lit.{Lit};
ghost use Rattle.search_trail.specs.Trails.{lits_of};
ghost use Rattle.refutation_log.specs.Counted.{IsOpen};
ghost use Rattle.watch_propagate.specs.WatchRule.{AreSameLits};
ghost use Rattle.search_state.specs.Held.{BeginsOpen, BeginsTrue, BeginsUnit, HaveChanged, IsAllFalse, IsKnown};
ghost use Rattle.search_state.specs.declared.orders.Standing.TheVariants.{Fails, Implies, Rests};

use currency_base::Lit;
use search_trail::Trail;
use watch_propagate::truth;

/// How a clause stands under a trail.
#[derive(Clone, Copy, PartialEq, Eq)]
pub(crate) enum Standing {
    /// Its first literal is true, or its first two are open.
    Rests,
    /// Its first literal is open and the others are false.
    Implies,
    /// All its literals are false.
    Fails,
}

/// Puts the literals of a clause into an order in which its first two may be watched where nothing is assumed, and tells
/// how it stands.
pub(crate) fn arrange(lits: &mut Vec<Lit>, trail: &Trail) -> Standing
    requires { All (λ lit. var_of lit < trail.now.vars) lits.old.items }
    ensures same { AreSameLits lits.old.items lits.new.items }
    ensures once { OnlyOnce lits.old.items → OnlyOnce lits.new.items }
    ensures rests { result ≡ Rests → BeginsTrue (lits_of trail.now) lits.new.items ⊎ BeginsOpen (lits_of trail.now)
        lits.new.items }
    ensures implies { result ≡ Implies → BeginsUnit (lits_of trail.now) lits.new.items }
    ensures fails { result ≡ Fails → IsAllFalse (lits_of trail.now) lits.new.items }
{
    if let Some(place) = first_true(trail, lits) {
        change(lits, 0, place);
        return Standing::Rests;
    }
    let Some(place) = first_open(trail, lits, 0) else {
        return Standing::Fails;
    };
    change(lits, 0, place);
    let Some(other) = first_open(trail, lits, 1) else {
        return Standing::Implies;
    };
    change(lits, 1, other);
    Standing::Rests
}

// Two literals change places.
fn change(lits: &mut Vec<Lit>, from: usize, to: usize)
    requires from { from < length lits.old.items }
    requires to { to < length lits.old.items }
    ensures { HaveChanged lits.old.items lits.new.items from to }
{
    lits.swap(from, to);
}

// The first place of a clause whose literal is true.
fn first_true(trail: &Trail, lits: &[Lit]) -> Option<usize>
    requires { All (λ lit. var_of lit < trail.now.vars) lits.now }
    ensures within { IfSome result (λ place. place < length lits.now) }
    ensures found { IfSome result (λ place. (x : Lit) → slice_get lits.now place ≡ Some x → Contains (lits_of trail.now) x) }
    ensures none { IfNone result ((k : ℕ) (x : Lit) → slice_get lits.now k ≡ Some x → Contains (lits_of trail.now) x → ⊥) }
{
    for place in 0..lits.len() {
        if is_true(trail, lits[place]) {
            return Some(place);
        }
    }
    None
}

// The first place of a clause, from one on, whose literal is open.
fn first_open(trail: &Trail, lits: &[Lit], start: usize) -> Option<usize>
    requires { All (λ lit. var_of lit < trail.now.vars) lits.now }
    ensures later { IfSome result (λ place. start ≤ place) }
    ensures within { IfSome result (λ place. place < length lits.now) }
    ensures found { IfSome result (λ place. (x : Lit) → slice_get lits.now place ≡ Some x → IsOpen (lits_of trail.now) x) }
    ensures none { IfNone result ((k : ℕ) (x : Lit) → start ≤ k → slice_get lits.now k ≡ Some x → IsKnown (lits_of trail.now) x) }
{
    for place in start..lits.len() {
        if is_open(trail, lits[place]) {
            return Some(place);
        }
    }
    None
}

// Is the literal true under a trail?
fn is_true(trail: &Trail, lit: Lit) -> bool
    requires { var_of lit < trail.now.vars }
    ensures holds { result ≡ true → Contains (lits_of trail.now) lit }
    ensures not_true { result ≡ false → Contains (lits_of trail.now) lit → ⊥ }
{
    trail.are_entries();
    match truth(trail, lit) {
        Some(true) => true,
        Some(false) => false,
        None => false,
    }
}

// Is the literal neither true nor false under a trail?
fn is_open(trail: &Trail, lit: Lit) -> bool
    requires { var_of lit < trail.now.vars }
    ensures neither { result ≡ true → IsOpen (lits_of trail.now) lit }
    ensures known { result ≡ false → IsKnown (lits_of trail.now) lit }
{
    match truth(trail, lit) {
        Some(true) => false,
        Some(false) => false,
        None => true,
    }
}
