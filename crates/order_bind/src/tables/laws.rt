ghost use Rattle.std.specs.Prelude.{◌≡◌, ℕ, List, Result};
ghost use Rattle.spec_model.specs.declared.relation.Relation.{Relation};
ghost use Rattle.text_grammar.specs.declared.named.Named.{Named};
ghost use Rattle.bind_faults.specs.declared.fault.BindFault.{BindFault};
ghost use Rattle.order_bind.specs.TableOrders.{IsOrdersMade};

use table_bind::one_table;

/// A law: documents, relations, the name of a relation and that of a document have one outcome at most.
pub fn one_orders()
    ensures { (told : List (List ℕ × List ℕ)) (done : List Relation) (relation document : Named)
        (a b : Result (List Relation) BindFault)
        → IsOrdersMade told done relation document a → IsOrdersMade told done relation document b → a ≡ b }
{
    one_table();
}
