ghost use Rattle.std.specs.Prelude.{◌≡◌, ℕ, List, Result};
ghost use Rattle.currency_base.specs.declared.value.Value.{Value};
ghost use Rattle.currency_csv.specs.declared.table.Column.{Column};
ghost use Rattle.bind_faults.specs.declared.fault.BindFault.{BindFault};
ghost use Rattle.table_bind.specs.Tuples.{AreTuples};

use currency_csv::one_list_of_records;

/// A law: told documents, a name and columns have one outcome at most.
pub fn one_table()
    ensures { (told : List (List ℕ × List ℕ)) (name : List ℕ) (columns : List Column) (a b : Result (List (List Value)) BindFault)
        → AreTuples told name columns a → AreTuples told name columns b → a ≡ b }
{
    one_list_of_records();
}
