ghost use Rattle.std.specs.Prelude.{◌≡◌, ◌∷◌, ℕ, List, [], Contains, length, map, take, slice_get, Some};
ghost use Rattle.std.specs.List.{filter};
ghost use Rattle.currency_base.specs.Literals.{var_of};
ghost use Rattle.currency_base.specs.declared.lit.Lit.{Lit};
ghost use Rattle.clause_arena.specs.Arenas.{Arena, AreWatchers, is_other};
ghost use Rattle.search_trail.specs.Trails.{AreEntries, Entry, Trail, assumed, implied, lits_of, rebased, undone};
ghost use Rattle.watch_propagate.specs.WatchRule.{AreAtRest, AreReasons, HasAdded, HasReason, Implies, IsDueTo, IsQuiet, IsRewatched, KeepsWatch};

/// Laws: what keeps the watch rule. A trail with no entry has it; an implied literal keeps it, and so do an
/// assumed one where all entries have been gone through, going back, and taking a clause off the watch lists. A clause is
/// added where nothing is assumed and its first literal is true or its first two are open, or it is added and its first
/// literal implied, where that one is open and the second is not false by what came before the current level.
pub fn watch_rule_is_kept()
    ensures begun { (a : Arena) → (t : Trail) → t.entries ≡ [] → t.starts ≡ [] → KeepsWatch a t }
    ensures assumed { (a : Arena) → (t : Trail) → (lit : Lit) → KeepsWatch a t → t.gone ≡ length t.entries
        → KeepsWatch a (assumed t lit) }
    ensures implied { (a : Arena) → (t : Trail) → (lit : Lit) → (clause : ℕ) → AreEntries t → KeepsWatch a t
        → KeepsWatch a (implied t lit clause) }
    ensures undone { (a : Arena) → (t : Trail) → (level : ℕ) → AreEntries t → KeepsWatch a t → KeepsWatch a (undone t level) }
    ensures rebased { (a : Arena) → (t : Trail) → (var clause : ℕ) → KeepsWatch a t → KeepsWatch a (rebased t var clause) }
    ensures dropped { (old new : Arena) → (clause : ℕ) → (t : Trail) → new.clauses ≡ old.clauses
        → new.watchers ≡ map (filter (is_other clause)) old.watchers → KeepsWatch old t → KeepsWatch new t }
    ensures learned { (old new : Arena) → (lits : List Lit) → (t : Trail) → (lit : Lit) → (clause : ℕ) → AreEntries t
        → slice_get lits 0 ≡ Some lit → HasAdded old new lits → IsDueTo t lits → KeepsWatch old t → KeepsWatch new
        (implied t lit clause) }
    ensures quiet { (old new : Arena) → (lits : List Lit) → (t : Trail) → AreEntries t → t.starts ≡ []
        → HasAdded old new lits → IsQuiet t lits → KeepsWatch old t → KeepsWatch new t }
{}

/// Laws: under the watch rule unit propagation is at rest on each watched clause where a level begins, and where
/// all entries have been gone through.
pub fn watched_are_at_rest()
    ensures at_starts { (a : Arena) → (t : Trail) → (i start : ℕ) → AreWatchers a → AreEntries t → KeepsWatch a t
        → slice_get t.starts i ≡ Some start → AreAtRest a (take start (lits_of t)) }
    ensures at_end { (a : Arena) → (t : Trail) → AreWatchers a → AreEntries t → KeepsWatch a t
        → t.gone ≡ length t.entries → AreAtRest a (lits_of t) }
{}

/// Laws: entries keep their reasons where literals of clauses change places, where implied entries follow, where
/// levels are taken away, and where a clause of one literal, which is true, becomes the reason of that literal.
pub fn reasons_are_kept()
    ensures propagated { (old new : Arena) → (was is : Trail) → IsRewatched old new → Implies new was is
        → AreReasons old was.entries → AreReasons new is.entries }
    ensures assumed { (a : Arena) → (t : Trail) → (lit : Lit) → AreReasons a t.entries → AreReasons a (assumed t lit).entries }
    ensures implied { (a : Arena) → (t : Trail) → (lit : Lit) → (clause : ℕ) → HasReason a (lits_of t) lit clause
        → AreReasons a t.entries → AreReasons a (implied t lit clause).entries }
    ensures undone { (a : Arena) → (t : Trail) → (level : ℕ) → AreReasons a t.entries → AreReasons a (undone t level).entries }
    ensures rebased { (a : Arena) → (t : Trail) → (lit : Lit) → (clause : ℕ) → AreEntries t → Contains (lits_of t) lit
        → slice_get a.clauses clause ≡ Some (lit ∷ []) → AreReasons a t.entries
        → AreReasons a (rebased t (var_of lit) clause).entries }
    ensures added { (old new : Arena) → (lits : List Lit) → (entries : List Entry) → HasAdded old new lits
        → AreReasons old entries → AreReasons new entries }
{}
