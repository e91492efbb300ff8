ghost use Rattle.std.specs.Prelude.{◌≡◌, OnOk};
ghost use Rattle.text_write.specs.Spacing.{writes_all};
ghost use Rattle.spec_write.specs.Pieces.{ordering_pieces};

use crate::listed::{Separator, Written, write_listed};
use currency_base::NoMemory;
use spec_syntax::{NamedPair, OrderingTree};
use text_write::TextWriter;

/// Writes pairs of rows of one attribute.
pub fn write_ordering(into: &mut TextWriter, ordering: &OrderingTree) -> Result<(), NoMemory>
    ensures { OnOk result (into.new ≡ writes_all into.old (ordering_pieces ordering.now)) }
{
    into.name(&ordering.relation.name)?;
    into.symbol(".")?;
    into.name(&ordering.attr.name)?;
    into.symbol(":")?;
    write_listed::<PairText>(into, Separator::Comma, &ordering.pairs)
}

/// An earlier row and a later one.
enum PairText {}

impl Written for PairText {
    ghost use Rattle.spec_write.specs.Pieces.{pair_pieces};

    type Tree = NamedPair;

    ghost pieces = { pair_pieces };

    fn write(into: &mut TextWriter, pair: &NamedPair) -> Result<(), NoMemory> {
        into.name(&pair.first.name)?;
        into.symbol("<")?;
        into.name(&pair.second.name)
    }
}
