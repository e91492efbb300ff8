//! The relation that is asked of, and the name of its entity column.

ghost use Rattle.std.specs.Prelude.{◌≡◌, ◌∷◌, List, IfOk, option_map, unwrap_or};
ghost use Rattle.spec_syntax.specs.declared.trees.StatementTree.{StatementTree as Statements};
ghost use Rattle.golden_command.specs.Asked.{column_in, relation_named};

use currency_base::{ByteList, Name, NoMemory};
use record_text::bytes_of;
use spec_model::Relation;
use spec_syntax::{SpecTree, StatementTree};
use std::alloc::Global;

/// The relation of a name, byte for byte.
pub(crate) fn relation_named(relations: &[Relation], name: &str) -> Option<usize>
    ensures { result ≡ relation_named relations.now name.now }
{
    relations
        .iter()
        .position(|relation| relation.name.bytes() == name.as_bytes())
}

/// The name of the entity column of a relation, as its statement declares it.
pub(crate) fn column_of(
    alloc: Global,
    tree: &SpecTree,
    relation: &Name,
) -> Result<ByteList, NoMemory>
    ensures { IfOk result (λ column. column ≡ column_in tree.now.statements relation.now) }
{
    let statements = tree.statements.as_slice();
    for place in 0..statements.len() {
        if let Some(column) = column_here(&statements[place], relation) {
            return bytes_of(alloc, column.bytes());
        }
    }
    Ok(ByteList::new(alloc))
}

/// The name of the entity column, if the statement declares this relation.
fn column_here<'a>(statement: &'a StatementTree, relation: &Name) -> Option<&'a Name>
    ensures { (more : List Statements) → column_in (statement.now ∷ more) relation.now
        ≡ unwrap_or (option_map (λ column. column.now) result) (column_in more relation.now) }
{
    match statement {
        StatementTree::Relation { name, entity, .. } => {
            if name.name.bytes() == relation.bytes() {
                Some(&entity.name)
            } else {
                None
            }
        }
        _ => None,
    }
}
