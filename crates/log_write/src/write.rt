ghost use Rattle.std.specs.Prelude.{◌≡◌, IfOk, OnOk};
ghost use Rattle.text_write.specs.Pieces.{text_of};
ghost use Rattle.log_write.specs.Pieces;
ghost use Rattle.text_write.specs.Spacing.{writes_all};
ghost use Rattle.log_write.specs.Pieces.{clause_pieces, log_pieces};

use crate::statement::write_statements;
use crate::step::write_steps;
use currency_base::{ByteList, NoMemory};
use refutation_log::Log;
use std::alloc::Global;
use text_write::TextWriter;

/// The text of a log, a line a clause; the empty log is the empty text.
///
/// What is written of a log that can be written is read as the log: see [`written_is_read`]. The time is
/// linear in the text.
///
/// [`written_is_read`]: crate::written_is_read
#[tactic(auto, using(text_write::proofs::Writings::text_written))]
pub fn write_log(alloc: Global, log: &Log) -> Result<ByteList, NoMemory>
    ensures { IfOk result (λ text. text ≡ text_of (log_pieces log.now)) }
{
    let mut into = TextWriter::new(alloc);
    write_log_into(&mut into, log)?;
    Ok(into.into_text())
}

/// Writes a log after what is written; of the empty log nothing is written.
pub fn write_log_into(into: &mut TextWriter, log: &Log) -> Result<(), NoMemory>
    ensures { OnOk result (into.new ≡ writes_all into.old (log_pieces log.now)) }
{
    if is_empty(log) {
        Ok(())
    } else {
        write_clauses(into, log)
    }
}

/// Writes the head of a log, its statements and its steps.
#[tactic(auto, using(text_write::proofs::Writings::writes_append))]
fn write_clauses(into: &mut TextWriter, log: &Log) -> Result<(), NoMemory>
    ensures { OnOk result (into.new ≡ writes_all into.old (clause_pieces log.now)) }
{
    into.word("log")?;
    into.symbol(";")?;
    write_statements(into, log.answers.as_slice(), log.statements.as_slice())?;
    write_steps(into, &log.steps)
}

/// Is there no statement and no step?
fn is_empty(log: &Log) -> bool
    ensures { result ≡ Pieces.is_empty log.now }
{
    log.statements.len() == 0 && log.steps.len() == 0
}
