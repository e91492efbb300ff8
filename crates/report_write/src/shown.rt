ghost use Rattle.std.specs.Prelude.{◌≡◌, ◌<◌, [], length, slice_index_or};
ghost use Rattle.completion_fill.specs.Alike.{AreAlike};
ghost use Rattle.spec_model.specs.Completion.{lists_of, ranking_of};
ghost use Rattle.report_write.specs.Pieces.{differing, same_rows};

use currency_base::{AttrId, EntId, RelId, RowId};
use spec_model::Completion;
use std::marker::Model;

/// The rankings that are written of a completion: all of them, or those that differ from the first
/// completion's. Contracts see the rankings, with no row at a place where none is written.
#[derive(Drop)]
pub struct Shown<'a> {
    completion: &'a Completion,
    // The completion whose rankings are left out.
    first: Option<&'a Completion>,
}

impl<'a> Model for Shown<'a> {
    ghost use Rattle.std.specs.Prelude.{IfSome, option_map};
    ghost use Rattle.completion_fill.specs.Alike.{AreAlike};
    ghost use Rattle.spec_model.specs.Completion.{Rankings};
    ghost use Rattle.report_write.specs.Shown.{shown};

    ghost Value = { Rankings };

    ghost view = { λ s. shown (option_map (λ c. c.now) s.first) s.completion.now };

    ghost invariant = { λ s. IfSome s.first (λ first. AreAlike first.now s.completion.now) };
}

impl<'a> Shown<'a> {
    /// All rankings of a completion.
    pub fn whole(completion: &'a Completion) -> Shown<'a>
        ensures { result ≡ completion.now }
    {
        Shown {
            completion,
            first: None,
        }
    }

    /// The rankings of a completion that differ from those of the first one.
    pub fn differing(first: &'a Completion, completion: &'a Completion) -> Shown<'a>
        requires { AreAlike first.now completion.now }
        ensures { result ≡ differing first.now completion.now }
    {
        Shown {
            completion,
            first: Some(first),
        }
    }
}

impl Shown<'_> {
    /// The list of an attribute and an entity of a relation; one with no row is not written.
    pub fn ranking(&self, rel: RelId, attr: AttrId, ent: EntId) -> &[RowId]
        requires rel { rel.0 < length self.now }
        requires attr { attr.0 < length (slice_index_or self.now rel.0 []) }
        requires ent { ent.0 < length (lists_of self.now rel.0 attr.0) }
        ensures { result.now ≡ ranking_of self.now rel.0 attr.0 ent.0 }
    {
        match self.first {
            None => self.completion.ranking(rel, attr, ent),
            Some(first) => differing_list(first, self.completion, rel, attr, ent),
        }
    }
}

/// The list of a completion at a place, but no row where the first one has the same list.
#[tactic(auto, using(crate::proofs::Differing::same_relations))]
fn differing_list<'a>(
    first: &Completion,
    completion: &'a Completion,
    rel: RelId,
    attr: AttrId,
    ent: EntId,
) -> &'a [RowId]
    requires alike { AreAlike first.now completion.now }
    requires rel { rel.0 < length (differing first.now completion.now) }
    requires attr { attr.0 < length (slice_index_or (differing first.now completion.now) rel.0 []) }
    requires ent { ent.0 < length (lists_of (differing first.now completion.now) rel.0 attr.0) }
    ensures { result.now ≡ ranking_of (differing first.now completion.now) rel.0 attr.0 ent.0 }
{
    let rows = completion.ranking(rel, attr, ent);
    if are_same(first.ranking(rel, attr, ent), rows) {
        &[]
    } else {
        rows
    }
}

/// Do the lists have the same rows in the same order?
fn are_same(first: &[RowId], rows: &[RowId]) -> bool
    ensures { result ≡ same_rows first.now rows.now }
{
    first == rows
}
