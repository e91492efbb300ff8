ghost use Rattle.std.specs.Prelude.{◌≡◌, ℕ, List};
ghost use Rattle.horn_closure.specs.Least.{Horn, AreLeast, IsAmong, IsLeast};
ghost use Rattle.horn_closure.specs.declared.derived.Derived.{Derived};

/// A law: the cells that were derived are cells of the least set.
pub fn derived_are_least()
    ensures { (h : Horn) (derived : List Derived) → AreLeast h derived → (slot : ℕ) → IsAmong derived slot → IsLeast h slot }
{}
