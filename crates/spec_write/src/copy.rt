ghost use Rattle.std.specs.Prelude.{◌≡◌, OnOk};
ghost use Rattle.text_write.specs.Spacing.{writes_all};
ghost use Rattle.spec_write.specs.Pieces.{copy_pieces, mappings_pieces, names_pieces};

use crate::listed::{Separator, Written, write_listed};
use currency_base::NoMemory;
use spec_syntax::{CopyTree, Mappings, Named, NamedList, NamedPair};
use text_write::TextWriter;

/// Writes a copy.
#[tactic(auto, using(text_write::proofs::Writings::writes_append))]
pub fn write_copy(into: &mut TextWriter, copy: &CopyTree) -> Result<(), NoMemory>
    ensures { OnOk result (into.new ≡ writes_all into.old (copy_pieces copy.now)) }
{
    into.word("copy")?;
    into.name(&copy.name.name)?;
    into.word("into")?;
    into.name(&copy.target.name)?;
    write_names(into, &copy.target_attrs)?;
    into.word("from")?;
    into.name(&copy.source.name)?;
    write_names(into, &copy.source_attrs)?;
    write_mappings(into, &copy.mappings)
}

/// Writes names, in parentheses.
#[tactic(auto, using(text_write::proofs::Writings::writes_append))]
fn write_names(into: &mut TextWriter, names: &NamedList) -> Result<(), NoMemory>
    ensures { OnOk result (into.new ≡ writes_all into.old (names_pieces names.now)) }
{
    into.symbol("(")?;
    write_listed::<NameText>(into, Separator::Comma, names)?;
    into.symbol(")")
}

/// Writes which rows are copied from which, or the document that lists them.
fn write_mappings(into: &mut TextWriter, mappings: &Mappings) -> Result<(), NoMemory>
    ensures { OnOk result (into.new ≡ writes_all into.old (mappings_pieces mappings.now)) }
{
    match mappings {
        Mappings::Inline(pairs) => {
            into.symbol(":")?;
            write_listed::<MappingText>(into, Separator::Comma, pairs)
        }
        Mappings::Table(document) => {
            into.word("using")?;
            into.string(&document.name)
        }
    }
}

/// A name.
enum NameText {}

impl Written for NameText {
    ghost use Rattle.spec_write.specs.Pieces.{name_pieces};

    type Tree = Named;

    ghost pieces = { name_pieces };

    fn write(into: &mut TextWriter, name: &Named) -> Result<(), NoMemory> {
        into.name(&name.name)
    }
}

/// The row of the target and the row of the source from which it is copied.
enum MappingText {}

impl Written for MappingText {
    ghost use Rattle.spec_write.specs.Pieces.{mapping_pieces};

    type Tree = NamedPair;

    ghost pieces = { mapping_pieces };

    fn write(into: &mut TextWriter, mapping: &NamedPair) -> Result<(), NoMemory> {
        into.name(&mapping.first.name)?;
        into.word("from")?;
        into.name(&mapping.second.name)
    }
}
