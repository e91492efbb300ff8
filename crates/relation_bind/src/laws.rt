ghost use Rattle.std.specs.Prelude.{◌≡◌, ℕ, List, Result};
ghost use Rattle.spec_model.specs.declared.relation.Relation.{Relation};
ghost use Rattle.bind_faults.specs.declared.fault.BindFault.{BindFault};
ghost use Rattle.relation_bind.specs.Declarations.{Declared};
ghost use Rattle.relation_bind.specs.Relations.{IsDeclared};

use table_bind::one_table;

/// A law: documents and a declaration have one outcome at most, whatever names are taken.
pub fn one_declaration()
    ensures { (told : List (List ℕ × List ℕ)) (taken : List (List ℕ)) (d : Declared) (a b : Result Relation BindFault)
        → IsDeclared told taken d a → IsDeclared told taken d b → a ≡ b }
{
    one_table();
}
