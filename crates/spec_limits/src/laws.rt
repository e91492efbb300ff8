ghost use Rattle.std.specs.Prelude.{◌≡◌, ℕ, List, Some, slice_get, slice_set};
ghost use Rattle.currency_base.specs.declared.pair.Pair.{Pair};
ghost use Rattle.spec_model.specs.Spec.{Spec};
ghost use Rattle.spec_model.specs.declared.relation.Relation.{Relation};
ghost use Rattle.spec_limits.specs.Limits.{exceeded, order_variables, rows_together};

/// A law: limits do not ask for given pairs. With others at one relation they are as they were.
pub fn given_pairs_change_no_limit()
    ensures exceeded { (s : Spec) (rel : ℕ) (r : Relation) (given : List Pair) → slice_get s.relations rel ≡ Some r
        → exceeded (record s { relations = slice_set s.relations rel (record r { given = given }) }) ≡ exceeded s }
    ensures rows { (relations : List Relation) (rel : ℕ) (r : Relation) (given : List Pair) → slice_get relations rel ≡ Some r
        → rows_together (slice_set relations rel (record r { given = given })) ≡ rows_together relations }
    ensures variables { (relations : List Relation) (rel : ℕ) (r : Relation) (given : List Pair)
        → slice_get relations rel ≡ Some r
        → order_variables (slice_set relations rel (record r { given = given })) ≡ order_variables relations }
{}
