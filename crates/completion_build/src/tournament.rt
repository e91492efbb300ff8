ghost use Rattle.std.specs.Prelude.{◌≡◌, ◌+◌, ◌<◌, ◌≤◌, ℕ, List, Some, length, slice_get};
ghost use Rattle.std.specs.Bool.{OnTrue, OnFalse};
ghost use Rattle.currency_base.specs.Lists.{OnlyOnce};
ghost use Rattle.entity_lists.specs.Lists.{rows_of};
ghost use Rattle.order_literals.specs.Numbers.{Numbered, IsPairOf};
ghost use Rattle.order_literals.specs.Statements.{statements_of};
ghost use Rattle.order_literals.specs.Said.{before, IsSaidTrue};
ghost use Rattle.completion_build.specs.Contests.{IsListOf, IsContest, Beats, IsDecided, IsCount};

use currency_base::{Assignment, AttrId, EntId, RelId, RowId};
use order_literals::{Numbering, one_literal, pairs_are_decided};
use std::marker::Model;

/// The rows of one list, and the assignment that puts of each two of them one before the other. Places are
/// those of the rows among the rows of their entity.
#[derive(Drop)]
pub(crate) struct Tournament<'a> {
    numbering: &'a Numbering,
    assignment: &'a Assignment,
    rel: RelId,
    attr: AttrId,
    rows: &'a [RowId],
}

impl<'a> Model for Tournament<'a> {
    ghost use Rattle.completion_build.specs.Contests.{Contest, IsContest};

    ghost Value = { Contest };

    ghost view = { λ t. record {
      numbers = t.numbering.now;
      truths = t.assignment.now;
      rel = t.rel;
      attr =
          t.attr;
      rows = t.rows.now;
    } };

    ghost invariant = { λ t. IsContest
        (record { numbers = t.numbering.now; truths = t.assignment.now; rel = t.rel; attr = t.attr; rows = t.rows.now }) };
}

impl<'a> Tournament<'a> {
    /// The rows of an entity, in an attribute.
    pub(crate) fn new(
        numbering: &'a Numbering,
        assignment: &'a Assignment,
        rel: RelId,
        attr: AttrId,
        ent: EntId,
    ) -> Tournament<'a>
        requires { IsListOf numbering.now assignment.now rel.0 attr.0 ent.0 }
        ensures numbers { result.numbers ≡ numbering.now }
        ensures truths { result.truths ≡ assignment.now }
        ensures rel { result.rel ≡ rel }
        ensures attr { result.attr ≡ attr }
        ensures rows { (table : Numbered) → slice_get numbering.now.tables rel.0 ≡ Some table
            → result.rows ≡ rows_of table.rows.entities ent.0 }
    {
        let rows = numbering.lists(rel).of_entity(ent);
        Tournament {
            numbering,
            assignment,
            rel,
            attr,
            rows,
        }
    }
}

impl Tournament<'_> {
    /// How many rows there are.
    pub(crate) fn len(&self) -> usize
        ensures { result ≡ length self.now.rows }
    {
        self.rows.len()
    }

    /// The rows, in the order of their places.
    pub(crate) fn rows(&self) -> &[RowId]
        ensures value { result.now ≡ self.now.rows }
        ensures decided { IsDecided (length self.now.rows) (Beats self.now) }
        ensures once { OnlyOnce self.now.rows }
    {
        pairs_are_decided();
        self.rows
    }

    /// The relation of the rows.
    pub(crate) fn rel(&self) -> RelId
        ensures { result ≡ self.now.rel }
    {
        self.rel
    }

    /// The attribute in which the rows are put one before another.
    pub(crate) fn attr(&self) -> AttrId
        ensures { result ≡ self.now.attr }
    {
        self.attr
    }

    /// Is the row at one place put before the row at another?
    pub(crate) fn is_before(&self, first: usize, second: usize) -> bool
        requires first { first < length self.now.rows }
        requires second { second < length self.now.rows }
        ensures yes { OnTrue result (Beats self.now first second) }
        ensures no { OnFalse result (Beats self.now first second → ⊥) }
    {
        pairs_are_decided();
        first != second && self.puts(self.rows[first], self.rows[second])
    }

    // Is one row of an entity put before another one?
    fn puts(&self, first: RowId, second: RowId) -> bool
        requires { IsPairOf self.now.numbers self.now.rel.0 self.now.attr.0 first second }
        ensures yes { OnTrue result (IsSaidTrue (statements_of self.now.numbers) self.now.truths
            (before self.now.rel self.now.attr first second)) }
        ensures no { OnFalse result (IsSaidTrue (statements_of self.now.numbers) self.now.truths
            (before self.now.rel self.now.attr second first)) }
    {
        pairs_are_decided();
        one_literal();
        let lit = self.numbering.before(self.rel, self.attr, first, second);
        self.assignment.value(lit.var()) != lit.negative()
    }

    /// One where the row at one place is put before the row at another, and else nothing.
    pub(crate) fn wins(&self, first: usize, second: usize) -> usize
        requires first { first < length self.now.rows }
        requires second { second < length self.now.rows }
        ensures few { result ≤ 1 }
        ensures counted { (count : ℕ) → IsCount (Beats self.now first) second count → IsCount (Beats self.now first)
            (second + 1) (count + result) }
    {
        if self.is_before(first, second) {
            return 1;
        }
        0
    }
}
