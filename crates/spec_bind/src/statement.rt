ghost use Rattle.std.specs.Prelude.{◌≡◌, ◌≤◌, ℕ, List, IfSome};
ghost use Rattle.currency_edge.specs.Fault.{Rose};
ghost use Rattle.bind_faults.specs.Faults.{IsDetermined, IsReadFault, IsReadFaultOf};
ghost use Rattle.spec_bind.specs.Bound.{IsStep, ReadsTableOf};

use crate::copy::bind_copying;
use crate::order::bind_ordering;
use crate::orders::bind_table;
use crate::relation::bind_declaration;
use crate::rule::bind_ruling;
use bind_faults::BindFault;
use bound_spec::Bound;
use currency_edge::Shelf;
use relation_bind::Declaration;
use spec_syntax::StatementTree;
use std::alloc::Global;

/// Binds a statement, with its table where it names one.
pub fn bind_statement<S: Shelf>(
    alloc: Global,
    bound: Bound,
    statement: &StatementTree,
    shelf: &mut S,
) -> Result<Bound, BindFault>
    ensures kept { S.texts shelf.new ≡ S.texts shelf.old }
    ensures later { S.faults shelf.old ≤ S.faults shelf.new }
    ensures step { IsDetermined result
        → IfSome (S.texts shelf.old) (λ told. IsStep told bound statement.now result) }
    ensures read_fault { IsReadFault result → Rose (S.faults shelf.old) (S.faults shelf.new) }
    ensures table { (name : List ℕ) → IsReadFaultOf result name → ReadsTableOf bound statement.now name }
{
    match statement {
        StatementTree::Relation {
            name,
            document,
            row,
            entity,
            attrs,
        } => {
            let declaration = Declaration {
                name,
                document,
                row,
                entity,
                attrs,
            };
            bind_declaration(alloc, bound, &declaration, shelf)
        }
        StatementTree::Order(ordering) => bind_ordering(alloc, bound, ordering),
        StatementTree::Orders { relation, document } => {
            bind_table(alloc, bound, relation, document, shelf)
        }
        StatementTree::Rule(rule) => bind_ruling(alloc, bound, rule),
        StatementTree::Copy(copy) => bind_copying(alloc, bound, copy, shelf),
    }
}
