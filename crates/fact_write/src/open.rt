//! The text where a budget is spent on a question.

ghost use Rattle.std.specs.Prelude.{◌≡◌, ◌++◌, IfOk, IfSome, OnOk, codes, option_map};
ghost use Rattle.log_write.specs.Pieces.{symbol, word};
ghost use Rattle.posed_facts.specs.Facts.{IsPosable};
ghost use Rattle.report_write.specs.Writable.{IsWritableReport};
ghost use Rattle.text_write.specs.Spacing.{writes_all};
ghost use Rattle.fact_write.specs.Open.{open_text, posed_pieces, question_pieces};

use crate::fact::write_fact;
use currency_base::{ByteList, NoMemory};
use item_write::{with_report, write_head};
use posed_facts::Fact;
use report_model::Report;
use spec_model::Specification;
use std::alloc::Global;
use text_write::TextWriter;

/// The text where a budget is spent on the question for a fact, or, for none, on whether there is a consistent completion: the
/// question, the report that says so, and the end.
pub fn open_text(
    alloc: Global,
    spec: &Specification,
    fact: Option<&Fact>,
    report: &Report,
) -> Result<ByteList, NoMemory>
    requires fact { IfSome fact (λ f. IsPosable spec.now.relations f.now) }
    requires report { IsWritableReport spec.now.relations report.now }
    ensures { IfOk result (λ text. text ≡ open_text spec.now.relations (option_map (λ f. f.now) fact.entry) report.now) }
{
    let mut into = TextWriter::new(alloc);
    write_question(&mut into, spec, fact)?;
    let mut text = with_report(alloc, into, spec, report)?;
    append(&mut text, "end;\n".as_bytes())?;
    Ok(text)
}

/// Appends bytes.
fn append(into: &mut ByteList, bytes: &[u8]) -> Result<(), NoMemory>
    ensures { OnOk result (into.new ≡ into.old ++ bytes.now) }
{
    for byte in bytes {
        into.push(*byte)?;
    }
    Ok(())
}

/// Writes the head of the text, and the question on which the budget was spent.
#[tactic(auto, using(text_write::proofs::Writings::writes_append))]
fn write_question(
    into: &mut TextWriter,
    spec: &Specification,
    fact: Option<&Fact>,
) -> Result<(), NoMemory>
    requires { IfSome fact (λ f. IsPosable spec.now.relations f.now) }
    ensures { OnOk result (into.new
        ≡ writes_all into.old (question_pieces spec.now.relations (option_map (λ f. f.now) fact.entry))) }
{
    write_head(into, "possible")?;
    into.word("question")?;
    write_posed(into, spec, fact)
}

/// Writes the question on which a budget was spent.
fn write_posed(
    into: &mut TextWriter,
    spec: &Specification,
    fact: Option<&Fact>,
) -> Result<(), NoMemory>
    requires { IfSome fact (λ f. IsPosable spec.now.relations f.now) }
    ensures { OnOk result (into.new
        ≡ writes_all into.old (posed_pieces spec.now.relations (option_map (λ f. f.now) fact.entry))) }
{
    match fact {
        None => write_consistent(into),
        Some(fact) => write_fact(into, spec, fact),
    }
}

/// Writes the question whether there is a consistent completion.
#[tactic(auto, using(text_write::proofs::Writings::writes_append))]
fn write_consistent(into: &mut TextWriter) -> Result<(), NoMemory>
    ensures { OnOk result (into.new ≡ writes_all into.old (word (codes "consistent") ++ symbol (codes ";"))) }
{
    into.word("consistent")?;
    into.symbol(";")
}
