//! The lines of the texts of what may hold.

ghost use Rattle.std.specs.Prelude.{◌≡◌, ◌+◌, ◌++◌, ◌∷◌, All, IfOk, OnOk, codes};
ghost use Rattle.std.specs.Fmt.{decimal};
ghost use Rattle.fact_write.specs.Pieces.{fact_pieces};
ghost use Rattle.item_write.specs.Pieces.{head_pieces};
ghost use Rattle.log_write.specs.Pieces.{symbol, word};
ghost use Rattle.posed_facts.specs.Facts.{IsPosable};
ghost use Rattle.report_model.specs.Writable.{IsWritableCompletion};
ghost use Rattle.report_write.specs.Pieces.{completions_pieces};
ghost use Rattle.text_write.specs.Pieces.{text_of, word_piece};
ghost use Rattle.text_write.specs.Spacing.{writes_all};
ghost use Rattle.possible_command.specs.Text.{brief_head, impossible_pieces, possible_pieces};
ghost use Rattle.possible_command.specs.Findings.{IsNamed, finding_pieces};

use crate::candidate::write_candidate;
use currency_base::{ByteList, NoMemory};
use decided_facts::Shown;
use fact_write::write_fact;
use item_write::write_head;
use itoa::Buffer;
use posed_facts::Fact;
use possible_values::Candidate;
use report_write::{write_completion, write_later};
use spec_model::{Completion, Specification};
use std::alloc::Global;
use text_write::TextWriter;

// ---- texts

/// Appends bytes.
pub(crate) fn append(into: &mut ByteList, bytes: &[u8]) -> Result<(), NoMemory>
    ensures { OnOk result (into.new ≡ into.old ++ bytes.now) }
{
    for byte in bytes {
        into.push(*byte)?;
    }
    Ok(())
}

/// The head of the whole text, and the completions.
pub(crate) fn whole_front(
    alloc: Global,
    spec: &Specification,
    completions: &[Completion],
) -> Result<ByteList, NoMemory>
    requires { All (IsWritableCompletion spec.now.relations) completions.now }
    ensures { IfOk result (λ text. text ≡ text_of
        (head_pieces (codes "possible") ++ completions_pieces spec.now.relations completions.now)) }
{
    let mut into = TextWriter::new(alloc);
    write_whole_front(&mut into, spec, completions)?;
    Ok(into.into_text())
}

/// The head of the brief text, and the completions.
pub(crate) fn brief_front(
    alloc: Global,
    spec: &Specification,
    completions: &[Completion],
) -> Result<ByteList, NoMemory>
    requires { All (IsWritableCompletion spec.now.relations) completions.now }
    ensures { IfOk result (λ text. text ≡ text_of (brief_head ++ completions_pieces spec.now.relations completions.now)) }
{
    let mut into = TextWriter::new(alloc);
    write_brief_front(&mut into, spec, completions)?;
    Ok(into.into_text())
}

/// Appends the line of a finding.
pub(crate) fn add_line(
    alloc: Global,
    spec: &Specification,
    one: &Candidate,
    finding: Shown,
    into: &mut ByteList,
) -> Result<(), NoMemory>
    requires { IsNamed spec.now.relations one.now }
    ensures { OnOk result (into.new ≡ into.old ++ text_of (finding_pieces spec.now.relations one.now finding)) }
{
    let mut line = TextWriter::new(alloc);
    write_finding(&mut line, spec, one, finding)?;
    append(into, line.into_text().as_slice())
}

/// Appends the question for a fact.
pub(crate) fn add_question(
    alloc: Global,
    spec: &Specification,
    fact: &Fact,
    into: &mut ByteList,
) -> Result<(), NoMemory>
    requires { IsPosable spec.now.relations fact.now }
    ensures { OnOk result (into.new
        ≡ into.old ++ text_of (word (codes "question") ++ fact_pieces spec.now.relations fact.now)) }
{
    let mut line = TextWriter::new(alloc);
    write_question(&mut line, spec, fact)?;
    append(into, line.into_text().as_slice())
}

// ---- pieces

/// Writes the head of the whole text, and the completions.
#[tactic(auto, using(text_write::proofs::Writings::writes_append))]
fn write_whole_front(
    into: &mut TextWriter,
    spec: &Specification,
    completions: &[Completion],
) -> Result<(), NoMemory>
    requires { All (IsWritableCompletion spec.now.relations) completions.now }
    ensures { OnOk result (into.new ≡ writes_all into.old
        (head_pieces (codes "possible") ++ completions_pieces spec.now.relations completions.now)) }
{
    write_head(into, "possible")?;
    write_completions(into, spec, completions)
}

/// Writes the head of the brief text, and the completions.
#[tactic(auto, using(text_write::proofs::Writings::writes_append))]
fn write_brief_front(
    into: &mut TextWriter,
    spec: &Specification,
    completions: &[Completion],
) -> Result<(), NoMemory>
    requires { All (IsWritableCompletion spec.now.relations) completions.now }
    ensures { OnOk result (into.new
        ≡ writes_all into.old (brief_head ++ completions_pieces spec.now.relations completions.now)) }
{
    write_brief_head(into)?;
    write_completions(into, spec, completions)
}

/// Writes the head of the brief text.
fn write_brief_head(into: &mut TextWriter) -> Result<(), NoMemory>
    ensures { OnOk result (into.new ≡ writes_all into.old brief_head) }
{
    into.word("currency")?;
    into.word("possible")?;
    into.word("brief")?;
    into.word("1")?;
    into.symbol(";")
}

/// Writes completions: the first whole, and of each later one what differs from the first.
fn write_completions(
    into: &mut TextWriter,
    spec: &Specification,
    completions: &[Completion],
) -> Result<(), NoMemory>
    requires { All (IsWritableCompletion spec.now.relations) completions.now }
    ensures { OnOk result (into.new ≡ writes_all into.old (completions_pieces spec.now.relations completions.now)) }
{
    match completions {
        [] => Ok(()),
        [first, later @ ..] => write_each(into, spec, first, later),
    }
}

/// Writes the first completion, and of each later one what differs from it.
#[tactic(auto, using(text_write::proofs::Writings::writes_append))]
fn write_each(
    into: &mut TextWriter,
    spec: &Specification,
    first: &Completion,
    later: &[Completion],
) -> Result<(), NoMemory>
    requires first { IsWritableCompletion spec.now.relations first.now }
    requires later { All (IsWritableCompletion spec.now.relations) later.now }
    ensures { OnOk result (into.new ≡ writes_all into.old (completions_pieces spec.now.relations (first.now ∷ later.now))) }
{
    write_completion(into, spec, first)?;
    for completion in later {
        write_later(into, spec, first, completion)?;
    }
    Ok(())
}

/// Writes a finding.
fn write_finding(
    into: &mut TextWriter,
    spec: &Specification,
    one: &Candidate,
    finding: Shown,
) -> Result<(), NoMemory>
    requires { IsNamed spec.now.relations one.now }
    ensures { OnOk result (into.new ≡ writes_all into.old (finding_pieces spec.now.relations one.now finding)) }
{
    match finding {
        Shown::FailsIn(place) => write_possible(into, spec, one, place),
        Shown::Holds => write_impossible(into, spec, one),
    }
}

/// Writes that a candidate is possible, by the listed completion of a place.
#[tactic(auto, using(text_write::proofs::Writings::writes_append))]
fn write_possible(
    into: &mut TextWriter,
    spec: &Specification,
    one: &Candidate,
    place: u32,
) -> Result<(), NoMemory>
    requires { IsNamed spec.now.relations one.now }
    ensures { OnOk result (into.new ≡ writes_all into.old (possible_pieces spec.now.relations one.now place)) }
{
    into.word("possible")?;
    write_candidate(into, spec, one)?;
    write_by(into, place)
}

/// Writes the number of the completion of a place, counted from 1.
fn write_by(into: &mut TextWriter, place: u32) -> Result<(), NoMemory>
    ensures { OnOk result (into.new
        ≡ writes_all into.old (word (codes "by") ++ (word_piece (decimal (place + 1)) ∷ symbol (codes ";")))) }
{
    let mut buffer = Buffer::new();
    into.word("by")?;
    into.word(buffer.format(place as u64 + 1))?;
    into.symbol(";")
}

/// Writes that a candidate is impossible.
#[tactic(auto, using(text_write::proofs::Writings::writes_append))]
fn write_impossible(
    into: &mut TextWriter,
    spec: &Specification,
    one: &Candidate,
) -> Result<(), NoMemory>
    requires { IsNamed spec.now.relations one.now }
    ensures { OnOk result (into.new ≡ writes_all into.old (impossible_pieces spec.now.relations one.now)) }
{
    into.word("impossible")?;
    write_candidate(into, spec, one)?;
    into.symbol(";")
}

/// Writes the question for a fact.
#[tactic(auto, using(text_write::proofs::Writings::writes_append))]
fn write_question(into: &mut TextWriter, spec: &Specification, fact: &Fact) -> Result<(), NoMemory>
    requires { IsPosable spec.now.relations fact.now }
    ensures { OnOk result (into.new
        ≡ writes_all into.old (word (codes "question") ++ fact_pieces spec.now.relations fact.now)) }
{
    into.word("question")?;
    write_fact(into, spec, fact)
}
