ghost use Rattle.std.specs.Prelude.{◌≡◌, ◌<◌, ◌+◌, ◌^◌, All, None, length, slice_index, IfOk, IfSome, IfNone, OnOk};
ghost use Rattle.copy_functions.specs.Copies.{IsCopied, source_at};
ghost use Rattle.spec_model.specs.Facts.{AreRelations, IsCopyAmong};
ghost use Rattle.entity_ties.specs.Links.{AddsLinks, AddsLinksOf, AreLinksOf, IsLinkOf};
ghost use Rattle.entity_ties.specs.Numbers.{AreNumbered};

use crate::cells::Numbering;
use copy_functions::CopyMap;
use currency_base::{NoMemory, RowId, Rows};
use spec_model::{Relation, Specification};
use std::alloc::Global;

/// That two entities, by their numbers, are linked.
#[derive(Clone, Copy)]
pub(crate) struct Link {
    pub one: u32,
    pub other: u32,
}

/// A link for each mapped row: from its entity to that of the row that it is copied from.
pub(crate) fn links_of(
    alloc: Global,
    spec: &Specification,
    numbering: &Numbering,
) -> Result<Vec<Link>, NoMemory>
    requires numbers { AreNumbered spec.now.relations (length spec.now.relations) numbering.now.firsts.items
        numbering.now.members.items }
    requires few { length numbering.now.members.items < 2 ^ 32 }
    ensures { IfOk result (λ links. AreLinksOf spec.now numbering.now.firsts.items links.items) }
{
    let mut links = Vec::new(alloc);
    for copy in spec.copies() {
        add_copy(&mut links, copy, spec.relations(), numbering)?;
    }
    Ok(links)
}

// Adds the links of a copy function.
fn add_copy(
    links: &mut Vec<Link>,
    copy: &CopyMap,
    relations: &[Relation],
    numbering: &Numbering,
) -> Result<(), NoMemory>
    requires facts { AreRelations relations.now }
    requires copied { IsCopyAmong relations.now copy.now }
    requires numbers { AreNumbered relations.now (length relations.now) numbering.now.firsts.items numbering.now.members.items }
    requires few { length numbering.now.members.items < 2 ^ 32 }
    ensures { OnOk result (AddsLinksOf relations.now numbering.now.firsts.items copy.now links.old.items links.new.items) }
{
    let (target, source) = (copy.target().0 as usize, copy.source().0 as usize);
    let (first, first_source) = (numbering.firsts[target], numbering.firsts[source]);
    let targets = &relations[target].rows;
    let sources = &relations[source].rows;
    add_links(links, copy, targets, sources, first, first_source)
}

// Adds a link for each mapped row, where the first entities of both relations have these numbers.
fn add_links(
    links: &mut Vec<Link>,
    copy: &CopyMap,
    targets: &Rows,
    sources: &Rows,
    first: u32,
    first_source: u32,
) -> Result<(), NoMemory>
    requires copied { IsCopied copy.now targets.now sources.now }
    requires few { length targets.now + 1 < 2 ^ 32 }
    requires targets { All (λ row. first + row.entity.0 < 2 ^ 32) targets.now }
    requires sources { All (λ row. first_source + row.entity.0 < 2 ^ 32) sources.now }
    ensures { OnOk result (AddsLinks copy.now targets.now sources.now first first_source (length targets.now)
        links.old.items links.new.items) }
{
    for row in 0..targets.len() {
        let row = RowId(row as u32);
        match link_of(copy, targets, sources, first, first_source, row) {
            Some(link) => links.push(link)?,
            None => {}
        }
    }
    Ok(())
}

// The link of a row, if it is mapped.
fn link_of(
    copy: &CopyMap,
    targets: &Rows,
    sources: &Rows,
    first: u32,
    first_source: u32,
    row: RowId,
) -> Option<Link>
    requires copied { IsCopied copy.now targets.now sources.now }
    requires within { row.0 < length targets.now }
    requires targets { All (λ row. first + row.entity.0 < 2 ^ 32) targets.now }
    requires sources { All (λ row. first_source + row.entity.0 < 2 ^ 32) sources.now }
    ensures some { IfSome result (IsLinkOf copy.now targets.now sources.now first first_source row) }
    ensures none { IfNone result (source_at copy.now row ≡ None) }
{
    let from = copy.source_of(row)?;
    let one = first + targets.row(row).entity.0;
    let other = first_source + sources.row(from).entity.0;
    Some(Link { one, other })
}
