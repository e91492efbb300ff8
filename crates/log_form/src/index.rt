ghost use Rattle.std.specs.Prelude.{◌≡◌, IfOk};
ghost use Rattle.std.specs.List.{list_any};
ghost use Rattle.spec_model.specs.Facts.{AreRelations};
ghost use Rattle.log_form.specs.Indexed.{AreIndexed, IsIndexFor, is_last};

use currency_base::{ItemList, NoMemory};
use entity_rows::{EntityRows, entity_rows};
use refutation_log::Statement;
use spec_model::Relation;
use std::alloc::Global;

/// The rows of each entity, for each relation.
pub(crate) type EntityIndex = ItemList<EntityRows>;

/// The rows of each entity of these relations, or nothing where no statement is a `Last`. Takes time in
/// proportion to the statements and, where one is a `Last`, the rows and entities.
pub(crate) fn index_for(
    alloc: Global,
    relations: &[Relation],
    statements: &[Statement],
) -> Result<EntityIndex, NoMemory>
    requires { AreRelations relations.now }
    ensures { IfOk result (IsIndexFor statements.now relations.now) }
{
    if has_last(statements) {
        entity_index(alloc, relations)
    } else {
        Ok(EntityIndex::new(alloc))
    }
}

// Is one of the statements a `Last`?
fn has_last(statements: &[Statement]) -> bool
    ensures { result ≡ list_any is_last statements.now }
{
    statements.iter().any(|statement| is_last(*statement))
}

// Is it a `Last`?
fn is_last(statement: Statement) -> bool
    ensures { result ≡ is_last statement }
{
    match statement {
        Statement::Last { .. } => true,
        _ => false,
    }
}

// The rows of each entity of these relations.
fn entity_index(alloc: Global, relations: &[Relation]) -> Result<EntityIndex, NoMemory>
    requires { AreRelations relations.now }
    ensures { IfOk result (AreIndexed relations.now) }
{
    let mut index = Vec::new(alloc);
    for relation in relations {
        index.push(entity_rows(alloc, relation)?)?;
    }
    Ok(EntityIndex::from_items(index))
}
