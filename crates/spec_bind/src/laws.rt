ghost use Rattle.std.specs.Prelude.{◌≡◌, ℕ, List, Result};
ghost use Rattle.spec_model.specs.Spec.{Spec};
ghost use Rattle.spec_syntax.specs.declared.trees.SpecTree.{SpecTree};
ghost use Rattle.bind_faults.specs.declared.fault.BindFault.{BindFault};
ghost use Rattle.spec_bind.specs.Bound.{IsSpecBound};

use copy_bind::one_copy;
use order_bind::tables::one_orders;
use relation_bind::one_declaration;

/// A law: documents and a tree have one outcome at most.
pub fn one_outcome()
    ensures { (told : List (List ℕ × List ℕ)) (tree : SpecTree) (a b : Result Spec BindFault)
        → IsSpecBound told tree a → IsSpecBound told tree b → a ≡ b }
{
    one_declaration();
    one_orders();
    one_copy();
}
