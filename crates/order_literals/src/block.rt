ghost use Rattle.std.specs.Prelude.{◌≡◌};
ghost use Rattle.order_literals.specs.Layout.{block_of};

use currency_base::{AttrId, RelId};

/// A run of numbered statements: all those of one kind on an attribute of a relation, or all on answers.
#[derive(Clone, Copy, PartialEq, Eq)]
pub enum Block {
    /// On the pairs of different rows of one entity, which of the two stands before the other.
    Pairs { rel: RelId, attr: AttrId },
    /// On the rows, whether they stand last.
    Tops { rel: RelId, attr: AttrId },
    /// On the values of the entities, whether they are current.
    Lasts { rel: RelId, attr: AttrId },
    /// On tuples, whether they are answers.
    Answers,
}

/// A kind of blocks on attributes of relations.
#[derive(Clone, Copy, PartialEq, Eq)]
pub(crate) enum BlockKind {
    Pairs,
    Tops,
    Lasts,
}

impl BlockKind {
    /// The block of this kind on an attribute of a relation.
    pub(crate) fn block(self, rel: RelId, attr: AttrId) -> Block
        ensures { result ≡ block_of self rel attr }
    {
        match self {
            BlockKind::Pairs => Block::Pairs { rel, attr },
            BlockKind::Tops => Block::Tops { rel, attr },
            BlockKind::Lasts => Block::Lasts { rel, attr },
        }
    }
}
