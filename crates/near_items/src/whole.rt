//! Items of a part, as items of the whole.

ghost use Rattle.std.specs.Prelude.{◌≡◌, IfSome};
ghost use Rattle.part_items.specs.Items.{whole_item, whole_pair};
ghost use Rattle.part_laws.specs.Parts.{rows_in, whole_row};
ghost use Rattle.spec_items.specs.declared.item.Item.TheVariants as item;
ghost use Rattle.near_items.specs.Sites.{IsSite};

use crate::site::Site;
use currency_base::{CopyId, Pair, RelId, RowId};
use spec_items::Item;

/// The item of the whole that an item of the part is, where its rows are there.
pub(crate) fn whole_item(site: &Site<'_>, item: Item) -> Option<Item>
    requires site { IsSite site.now.spec.now site.now.places.now site.now.part.now site.now.question.now site.now.asks.now }
    ensures { IfSome result (λ wide. wide ≡ whole_item site.now.places.now site.now.spec.now.copies item) }
{
    match item {
        Item::Given { rel, pair } => whole_given(site, rel, pair),
        Item::Rule(rule) => Some(Item::Rule(rule)),
        Item::Copy { copy, target } => whole_copy(site, copy, target),
    }
}

/// The given pair of the whole that one of the part is.
fn whole_given(site: &Site<'_>, rel: RelId, pair: Pair) -> Option<Item>
    requires site { IsSite site.now.spec.now site.now.places.now site.now.part.now site.now.question.now site.now.asks.now }
    ensures { IfSome result (λ wide. wide ≡ item.Given rel (whole_pair (rows_in site.now.places.now rel.0) pair)) }
{
    let earlier = whole_row(site, rel, pair.earlier)?;
    let later = whole_row(site, rel, pair.later)?;
    let pair = Pair {
        attr: pair.attr,
        earlier,
        later,
    };
    Some(Item::Given { rel, pair })
}

/// The mapped row of the whole that one of the part is.
fn whole_copy(site: &Site<'_>, copy: CopyId, target: RowId) -> Option<Item>
    requires site { IsSite site.now.spec.now site.now.places.now site.now.part.now site.now.question.now site.now.asks.now }
    ensures { IfSome result (λ wide. wide ≡ whole_item site.now.places.now site.now.spec.now.copies (item.Copy copy target)) }
{
    let function = site.spec.copies().get(copy.0 as usize)?;
    let target = whole_row(site, function.target(), target)?;
    Some(Item::Copy { copy, target })
}

/// The row of the whole that a row of the part is, if it is there.
fn whole_row(site: &Site<'_>, rel: RelId, row: RowId) -> Option<RowId>
    requires site { IsSite site.now.spec.now site.now.places.now site.now.part.now site.now.question.now site.now.asks.now }
    ensures { IfSome result (λ wide. wide ≡ whole_row (rows_in site.now.places.now rel.0) row) }
{
    if rel.0 as usize >= site.spec.relations().len() {
        return None;
    }
    row_at(site.places.rows(rel), row)
}

/// The row at a row's place among rows of the whole, if there is one.
fn row_at(rows: &[RowId], row: RowId) -> Option<RowId>
    ensures { IfSome result (λ wide. wide ≡ whole_row rows.now row) }
{
    rows.get(row.0 as usize).copied()
}
