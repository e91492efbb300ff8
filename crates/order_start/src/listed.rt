ghost use Rattle.std.specs.Prelude.{◌≡◌, ◌≢◌, ◌<◌, length, Some, slice_get};
ghost use Rattle.currency_base.specs.Literals.{var_of};
ghost use Rattle.order_literals.specs.Statements.{statements_of};
ghost use Rattle.order_start.specs.Lists.{slot_of};

use currency_base::{AttrId, Lit, RelId, RowId};
use order_literals::{Numbering, one_literal};
use search_trail::Values;
use std::marker::Model;

/// The rows of one list, and the values that are known of its pairs. Places are those of the rows among the rows of
/// their entity, or counted from the last of them where the list is turned.
#[derive(Drop)]
pub(crate) struct Listed<'a> {
    pub numbering: &'a Numbering,
    pub known: &'a Values,
    pub rel: RelId,
    pub attr: AttrId,
    pub rows: &'a [RowId],
    pub turned: bool,
}

impl<'a> Model for Listed<'a> {
    ghost use Rattle.order_start.specs.Lists.{Listed, IsListed};

    ghost Value = { Listed };

    ghost view = { λ l. record {
      numbers = l.numbering.now;
      known = l.known.now.given;
      rel = l.rel;
      attr = l.attr;
      rows =
          l.rows.now;
      turned = l.turned;
    } };

    ghost invariant = { λ l. IsListed (record {
      numbers = l.numbering.now;
      known = l.known.now.given;
      rel = l.rel;
      attr =
          l.attr;
      rows = l.rows.now;
      turned = l.turned;
    }) };
}

impl Listed<'_> {
    /// How many rows there are.
    pub(crate) fn len(&self) -> usize
        ensures { result ≡ length self.now.rows }
    {
        self.rows.len()
    }

    /// The row at a place.
    pub(crate) fn row(&self, place: usize) -> RowId
        requires { place < length self.now.rows }
        ensures { slice_get self.now.rows (slot_of self.now place) ≡ Some result }
    {
        let rows = self.rows;
        if self.turned {
            rows[rows.len() - 1 - place]
        } else {
            rows[place]
        }
    }

    /// The literal that says that the row at one place stands before the row at another.
    pub(crate) fn before(&self, first: usize, second: usize) -> Lit
        requires first { first < length self.now.rows }
        requires second { second < length self.now.rows }
        requires differ { first ≢ second }
        ensures { var_of result < length (statements_of self.now.numbers) }
    {
        one_literal();
        self.numbering
            .before(self.rel, self.attr, self.row(first), self.row(second))
    }

    /// Is the row at one place known to stand before the row at another?
    pub(crate) fn is_before(&self, first: usize, second: usize) -> bool
        requires first { first < length self.now.rows }
        requires second { second < length self.now.rows }
        requires differ { first ≢ second }
    {
        self.value(self.before(first, second)) == Some(true)
    }

    /// The value that is known of a literal, if one is.
    pub(crate) fn value(&self, lit: Lit) -> Option<bool>
        requires { var_of lit < length (statements_of self.now.numbers) }
    {
        self.known
            .value(lit.var())
            .map(|value| value != lit.negative())
    }
}
