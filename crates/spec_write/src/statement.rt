ghost use Rattle.std.specs.Prelude.{◌≡◌, ◌++◌, IfOk, OnOk};
ghost use Rattle.text_write.specs.Pieces.{text_of};
ghost use Rattle.text_write.specs.Spacing.{writes_all};
ghost use Rattle.spec_write.specs.Pieces.{ended_statement_pieces, many_pieces, spec_pieces, statement_pieces};

use crate::copy::write_copy;
use crate::ordering::write_ordering;
use crate::relation::{write_attrs, write_row};
use crate::rule::write_rule;
use currency_base::{ByteList, NoMemory};
use spec_syntax::{SpecTree, StatementTree, StatementTreeList};
use std::alloc::Global;
use text_write::TextWriter;

/// The text of a specification, a line a statement.
#[tactic(auto, using(text_write::proofs::Writings::text_written))]
pub fn write_spec(alloc: Global, tree: &SpecTree) -> Result<ByteList, NoMemory>
    ensures { IfOk result (λ text. text ≡ text_of (spec_pieces tree.now)) }
{
    let mut into = TextWriter::new(alloc);
    write_statements(&mut into, &tree.statements)?;
    Ok(into.into_text())
}

/// Writes statements, each with the semicolon that ends it.
fn write_statements(into: &mut TextWriter, statements: &StatementTreeList) -> Result<(), NoMemory>
    ensures { OnOk result (into.new ≡ writes_all into.old (many_pieces ended_statement_pieces statements.now)) }
{
    for statement in statements.as_slice() {
        write_statement(into, statement)?;
        into.symbol(";")?;
    }
    Ok(())
}

/// Writes a statement.
fn write_statement(into: &mut TextWriter, statement: &StatementTree) -> Result<(), NoMemory>
    ensures { OnOk result (into.new ≡ writes_all into.old (statement_pieces statement.now)) }
{
    match statement {
        StatementTree::Relation {
            name,
            document,
            row,
            entity,
            attrs,
        } => {
            into.word("relation")?;
            into.name(&name.name)?;
            into.word("from")?;
            into.string(&document.name)?;
            write_row(into, row)?;
            into.word("entity")?;
            into.name(&entity.name)?;
            write_attrs(into, attrs)
        }
        StatementTree::Order(ordering) => {
            into.word("order")?;
            write_ordering(into, ordering)
        }
        StatementTree::Orders { relation, document } => {
            into.word("orders")?;
            into.name(&relation.name)?;
            into.word("from")?;
            into.string(&document.name)
        }
        StatementTree::Rule(rule) => write_rule(into, rule),
        StatementTree::Copy(copy) => write_copy(into, copy),
    }
}
