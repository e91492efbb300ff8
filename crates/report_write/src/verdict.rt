ghost use Rattle.std.specs.Prelude.{◌≡◌, All, OnOk};
ghost use Rattle.log_write.specs.Pieces.{many_pieces};
ghost use Rattle.report_model.specs.declared.verdict.Verdict.TheVariants.{NotCertain, NotSame, Same};
ghost use Rattle.text_write.specs.Spacing.{writes_all};
ghost use Rattle.report_write.specs.Clauses.{answer_pieces, answers_pieces, undecided_pieces, word_clause};
ghost use Rattle.report_write.specs.Pieces.{claim_pieces, current_pieces};
ghost use Rattle.report_model.specs.Writable.{IsItemOf, IsPairOf, IsPlaceOf, IsWritableVerdict};

use crate::names::{write_attribute, write_entity, write_relation, write_row};
use currency_base::{AttrId, EntId, NoMemory, RelId, Tuple};
use itoa::Buffer;
use log_write::write_values;
use report_model::{Current, Verdict};
use spec_model::{Asked, Relation};
use text_write::TextWriter;

/// Writes what is claimed, with the items that are listed for it.
pub fn write_claim(
    into: &mut TextWriter,
    relations: &[Relation],
    verdict: &Verdict,
) -> Result<(), NoMemory>
    requires { IsWritableVerdict relations.now verdict.now }
    ensures { OnOk result (into.new ≡ writes_all into.old (claim_pieces relations.now verdict.now)) }
{
    match verdict {
        Verdict::Inconsistent => write_word(into, "inconsistent"),
        Verdict::Consistent => write_word(into, "consistent"),
        Verdict::Certain => write_word(into, "certain"),
        Verdict::NotCertain(asked) => write_not_certain(into, relations, asked),
        Verdict::Same(items) => write_same(into, relations, items.as_slice()),
        Verdict::NotSame { rel, attr, ent } => write_not_same(into, relations, *rel, *attr, *ent),
        Verdict::Answers(tuples) => write_answers(into, tuples.as_slice()),
        Verdict::Undecided(counted) => write_undecided(into, *counted),
    }
}

/// Writes a clause of one word.
fn write_word(into: &mut TextWriter, word: &str) -> Result<(), NoMemory>
    ensures { OnOk result (into.new ≡ writes_all into.old (word_clause word.now)) }
{
    into.word(word)?;
    into.symbol(";")
}

/// Writes that an asked pair fails in a completion.
#[tactic(auto, using(text_write::proofs::Writings::writes_append))]
fn write_not_certain(
    into: &mut TextWriter,
    relations: &[Relation],
    asked: &Asked,
) -> Result<(), NoMemory>
    requires { IsPairOf relations.now asked.now }
    ensures { OnOk result (into.new ≡ writes_all into.old (claim_pieces relations.now (NotCertain asked.now))) }
{
    into.word("not")?;
    into.word("certain")?;
    write_attribute(into, relations, asked.rel, asked.pair.attr)?;
    into.symbol(":")?;
    write_row(into, relations, asked.rel, asked.pair.earlier)?;
    into.symbol("<")?;
    write_row(into, relations, asked.rel, asked.pair.later)?;
    into.symbol(";")
}

/// Writes that these are the current tuples in every completion.
#[tactic(auto, using(text_write::proofs::Writings::writes_append))]
fn write_same(
    into: &mut TextWriter,
    relations: &[Relation],
    items: &[Current],
) -> Result<(), NoMemory>
    requires { All (IsItemOf relations.now) items.now }
    ensures { OnOk result (into.new ≡ writes_all into.old (claim_pieces relations.now (Same items.now))) }
{
    into.word("same")?;
    into.symbol(";")?;
    write_currents(into, relations, items)
}

/// Writes current tuples, a clause each.
fn write_currents(
    into: &mut TextWriter,
    relations: &[Relation],
    items: &[Current],
) -> Result<(), NoMemory>
    requires { All (IsItemOf relations.now) items.now }
    ensures { OnOk result (into.new ≡ writes_all into.old (many_pieces (current_pieces relations.now) items.now)) }
{
    for item in items {
        write_current(into, relations, item)?;
    }
    Ok(())
}

/// Writes the current tuple of an entity.
#[tactic(auto, using(text_write::proofs::Writings::writes_append))]
fn write_current(
    into: &mut TextWriter,
    relations: &[Relation],
    item: &Current,
) -> Result<(), NoMemory>
    requires { IsItemOf relations.now item.now }
    ensures { OnOk result (into.new ≡ writes_all into.old (current_pieces relations.now item.now)) }
{
    into.word("current")?;
    write_relation(into, relations, item.rel)?;
    write_entity(into, relations, item.rel, item.ent)?;
    write_values(into, item.values.as_slice())?;
    into.symbol(";")
}

/// Writes that completions differ in the current value of an attribute of an entity.
#[tactic(auto, using(text_write::proofs::Writings::writes_append))]
fn write_not_same(
    into: &mut TextWriter,
    relations: &[Relation],
    rel: RelId,
    attr: AttrId,
    ent: EntId,
) -> Result<(), NoMemory>
    requires { IsPlaceOf relations.now rel.0 attr.0 ent.0 }
    ensures { OnOk result (into.new ≡ writes_all into.old (claim_pieces relations.now (NotSame rel attr ent))) }
{
    into.word("not")?;
    into.word("same")?;
    write_attribute(into, relations, rel, attr)?;
    into.word("of")?;
    write_entity(into, relations, rel, ent)?;
    into.symbol(";")
}

/// Writes that these are the certain answers, a clause each.
#[tactic(auto, using(text_write::proofs::Writings::writes_append))]
fn write_answers(into: &mut TextWriter, tuples: &[Tuple]) -> Result<(), NoMemory>
    ensures { OnOk result (into.new ≡ writes_all into.old (answers_pieces tuples.now)) }
{
    into.word("answers")?;
    into.symbol(";")?;
    write_tuples(into, tuples)
}

/// Writes answers, a clause each.
fn write_tuples(into: &mut TextWriter, tuples: &[Tuple]) -> Result<(), NoMemory>
    ensures { OnOk result (into.new ≡ writes_all into.old (many_pieces answer_pieces tuples.now)) }
{
    for tuple in tuples {
        write_answer(into, tuple)?;
    }
    Ok(())
}

/// Writes an answer.
#[tactic(auto, using(text_write::proofs::Writings::writes_append))]
fn write_answer(into: &mut TextWriter, tuple: &Tuple) -> Result<(), NoMemory>
    ensures { OnOk result (into.new ≡ writes_all into.old (answer_pieces tuple.now)) }
{
    into.word("answer")?;
    write_values(into, tuple.as_slice())?;
    into.symbol(";")
}

/// Writes that the search was cut off after so many new clauses.
fn write_undecided(into: &mut TextWriter, counted: u64) -> Result<(), NoMemory>
    ensures { OnOk result (into.new ≡ writes_all into.old (undecided_pieces counted)) }
{
    let mut buffer = Buffer::new();
    into.word("undecided")?;
    into.word(buffer.format(counted))?;
    into.symbol(";")
}
