ghost use Rattle.std.specs.Prelude.{◌≡◌, List, [], ◌∷◌, ◌++◌, OnOk, codes};
ghost use Rattle.text_write.specs.Pieces.{Piece};
ghost use Rattle.text_write.specs.Spacing.{writes_all};
ghost use Rattle.spec_write.specs.Pieces.{listed_pieces, many_pieces, separator_pieces};

use currency_base::{ItemList, NoMemory};
use text_write::TextWriter;

/// How a tree is written. A type that stands for the rule implements it; no value of that type is made.
pub trait Written {
    /// What is written.
    type Tree;

    /// The tokens of a tree.
    ghost pieces: { Self.Tree → List Piece };

    /// Writes a tree.
    fn write(into: &mut TextWriter, tree: &Self::Tree) -> Result<(), NoMemory>
        ensures { OnOk result (into.new ≡ writes_all into.old (pieces tree.now)) };
}

/// What stands between two items of a list.
#[derive(Clone, Copy, PartialEq, Eq)]
pub enum Separator {
    Comma,
    /// The word `and`.
    And,
}

/// Writes a separator.
fn write_separator(into: &mut TextWriter, separator: Separator) -> Result<(), NoMemory>
    ensures { OnOk result (into.new ≡ writes_all into.old (separator_pieces separator)) }
{
    match separator {
        Separator::Comma => into.symbol(","),
        Separator::And => into.word("and"),
    }
}

/// Writes items with a separator between two.
pub fn write_listed<W: Written>(
    into: &mut TextWriter,
    separator: Separator,
    items: &ItemList<W::Tree>,
) -> Result<(), NoMemory>
    ensures { OnOk result (into.new ≡ writes_all into.old (listed_pieces (separator_pieces separator) W.pieces items.now)) }
{
    match items.as_slice() {
        [] => Ok(()),
        [first, rest @ ..] => {
            W::write(into, first)?;
            write_further::<W>(into, separator, rest)
        }
    }
}

/// Writes items with a separator before each.
fn write_further<W: Written>(
    into: &mut TextWriter,
    separator: Separator,
    items: &[W::Tree],
) -> Result<(), NoMemory>
    ensures { OnOk result (into.new ≡ writes_all into.old
        (many_pieces (λ y. separator_pieces separator ++ W.pieces y) items.now)) }
{
    for item in items {
        write_separator(into, separator)?;
        W::write(into, item)?;
    }
    Ok(())
}
