ghost use Rattle.std.specs.Prelude.{◌≡◌, [], List, None, map};
ghost use Rattle.text_grammar.specs.declared.named.Named.{Named};
ghost use Rattle.rule_bind.specs.Ruled.{names_of_vars, repeated};

/// A law: where no variable is listed twice, the number of a variable is its place among the listed
/// ones.
pub fn numbers_are_places()
    ensures { (vars : List Named) → repeated [] vars ≡ None → names_of_vars [] vars ≡ map (λ v. v.name) vars }
{}
