ghost use Rattle.std.specs.Prelude.{◌≡◌, [], OnOk, slice_index_or};
ghost use Rattle.text_write.specs.Spacing.{writes_all};
ghost use Rattle.log_write.specs.Pieces.{ended_statement_pieces, many_pieces, statement_pieces};

use crate::number::{write_cell, write_number};
use crate::values::write_values;
use currency_base::{NoMemory, Tuple, Value};
use refutation_log::Statement;
use text_write::TextWriter;

/// Writes statements, each with the semicolon that ends it.
#[tactic(auto, using(text_write::proofs::Writings::writes_append))]
pub fn write_statements(
    into: &mut TextWriter,
    answers: &[Tuple],
    statements: &[Statement],
) -> Result<(), NoMemory>
    ensures { OnOk result (into.new ≡ writes_all into.old (many_pieces (ended_statement_pieces answers.now) statements.now)) }
{
    for statement in statements {
        write_ended_statement(into, answers, statement)?;
    }
    Ok(())
}

/// Writes the word `statement`, a statement and its semicolon.
#[tactic(auto, using(text_write::proofs::Writings::writes_append))]
fn write_ended_statement(
    into: &mut TextWriter,
    answers: &[Tuple],
    statement: &Statement,
) -> Result<(), NoMemory>
    ensures { OnOk result (into.new ≡ writes_all into.old (ended_statement_pieces answers.now statement.now)) }
{
    into.word("statement")?;
    write_statement(into, answers, statement)?;
    into.symbol(";")
}

/// Writes a statement.
#[tactic(auto, using(text_write::proofs::Writings::writes_append))]
fn write_statement(
    into: &mut TextWriter,
    answers: &[Tuple],
    statement: &Statement,
) -> Result<(), NoMemory>
    ensures { OnOk result (into.new ≡ writes_all into.old (statement_pieces answers.now statement.now)) }
{
    match statement {
        Statement::Before {
            rel,
            attr,
            earlier,
            later,
        } => {
            into.word("before")?;
            write_cell(into, *rel, *attr, *earlier)?;
            write_number(into, later.0)
        }
        Statement::Top { rel, attr, row } => {
            into.word("top")?;
            write_cell(into, *rel, *attr, *row)
        }
        Statement::Last { rel, attr, row } => {
            into.word("last")?;
            write_cell(into, *rel, *attr, *row)
        }
        Statement::Answer { tuple } => {
            into.word("answer")?;
            write_values(into, values_at(answers, *tuple as usize))
        }
    }
}

/// The values of the answer at a place; none where there is none.
fn values_at<'a>(answers: &'a [Tuple], place: usize) -> &'a [Value]
    ensures { result.now ≡ slice_index_or answers.now place [] }
{
    match answers.get(place) {
        Some(values) => values.as_slice(),
        None => &[],
    }
}
