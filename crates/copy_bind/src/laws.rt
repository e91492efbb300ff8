ghost use Rattle.std.specs.Prelude.{◌≡◌, ℕ, List, Result};
ghost use Rattle.copy_functions.specs.Copies.{CopyFunction};
ghost use Rattle.copy_syntax.specs.declared.trees.CopyTree.{CopyTree};
ghost use Rattle.spec_model.specs.Spec.{Spec};
ghost use Rattle.bind_faults.specs.declared.fault.BindFault.{BindFault};
ghost use Rattle.copy_bind.specs.Made.{IsCopyMade};

use table_bind::one_table;

/// A law: told documents, a specification and a copy have one outcome at most.
pub fn one_copy()
    ensures { (told : List (List ℕ × List ℕ)) (done : Spec) (tree : CopyTree) (a b : Result CopyFunction BindFault)
        → IsCopyMade told done tree a → IsCopyMade told done tree b → a ≡ b }
{
    one_table();
}
