ghost use Rattle.std.specs.Prelude.{◌≡◌, [], All, OnOk, codes, if◌then◌else◌};
ghost use Rattle.log_write.specs.Pieces.{many_pieces, word};
ghost use Rattle.report_model.specs.Writable.{IsPairOf};
ghost use Rattle.text_write.specs.Spacing.{writes_all};
ghost use Rattle.forced_write.specs.ForcedText.{forced_pieces, pair_pieces};

use currency_base::NoMemory;
use itoa::Buffer;
use report_write::{write_attribute, write_row};
use spec_model::{Asked, Relation};
use text_write::TextWriter;

/// Writes how many pairs are forced, whether one is a loop, and the pairs.
#[tactic(auto, using(text_write::proofs::Writings::writes_append))]
pub(crate) fn write_pairs(
    into: &mut TextWriter,
    relations: &[Relation],
    loops: bool,
    pairs: &[Asked],
) -> Result<(), NoMemory>
    requires { All (IsPairOf relations.now) pairs.now }
    ensures { OnOk result (into.new ≡ writes_all into.old (forced_pieces relations.now loops pairs.now)) }
{
    let mut buffer = Buffer::new();
    into.word("forced")?;
    into.word(buffer.format(pairs.len()))?;
    write_loops(into, loops)?;
    into.symbol(";")?;
    write_each(into, relations, pairs)?;
    into.word("end")?;
    into.symbol(";")
}

// Writes that there is a loop, if there is.
fn write_loops(into: &mut TextWriter, loops: bool) -> Result<(), NoMemory>
    ensures { OnOk result (into.new ≡ writes_all into.old (if loops then word (codes "loops") else [])) }
{
    if loops { into.word("loops") } else { Ok(()) }
}

// Writes pairs, one after another.
fn write_each(
    into: &mut TextWriter,
    relations: &[Relation],
    pairs: &[Asked],
) -> Result<(), NoMemory>
    requires { All (IsPairOf relations.now) pairs.now }
    ensures { OnOk result (into.new ≡ writes_all into.old (many_pieces (pair_pieces relations.now) pairs.now)) }
{
    for pair in pairs {
        write_pair(into, relations, pair)?;
    }
    Ok(())
}

// Writes a pair.
#[tactic(auto, using(text_write::proofs::Writings::writes_append))]
fn write_pair(into: &mut TextWriter, relations: &[Relation], asked: &Asked) -> Result<(), NoMemory>
    requires { IsPairOf relations.now asked.now }
    ensures { OnOk result (into.new ≡ writes_all into.old (pair_pieces relations.now asked.now)) }
{
    into.word("pair")?;
    write_attribute(into, relations, asked.rel, asked.pair.attr)?;
    into.symbol(":")?;
    write_row(into, relations, asked.rel, asked.pair.earlier)?;
    into.symbol("<")?;
    write_row(into, relations, asked.rel, asked.pair.later)?;
    into.symbol(";")
}
