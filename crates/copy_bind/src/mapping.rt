// The rows that mappings name. `document` is the table that lists the mappings; where there is none, they
// stand in the text of the copy.

ghost use Rattle.std.specs.Prelude.{◌≡◌, ◌<◌, length, option_map};
ghost use Rattle.bind_faults.specs.Faults.{IsDue, all_of};
ghost use Rattle.copy_bind.specs.Copied.{mapping_named, row_named};

use bind_faults::BindFault;
use currency_base::{ErrorCode, ItemList, Name, RowId};
use name_index::NameIndex;
use std::alloc::Global;
use text_grammar::{Named, NamedPair};

/// A row of the target, the row of the source that it is copied from, and the line that says so.
#[derive(Drop)]
pub struct Mapping {
    pub target: RowId,
    pub source: RowId,
    pub line: u32,
}

/// Mappings, in the order of the text or of the records.
pub type MappingList = ItemList<Mapping>;

/// The row of a name, or the refusal of an unknown one.
fn row_named(
    alloc: Global,
    document: Option<&Name>,
    rows: &NameIndex,
    named: &Named,
) -> Result<RowId, BindFault>
    requires { length rows.now < 4294967296 }
    ensures { IsDue (row_named (option_map (λ n. n.now) document.entry) rows.now named.now) result }
{
    match rows.find(&named.name) {
        Some(place) => Ok(RowId(place as u32)),
        None => Err(BindFault::of(alloc, ErrorCode::UnknownRow, document, named)),
    }
}

/// The mapping that two names of rows say.
fn mapping_named(
    alloc: Global,
    document: Option<&Name>,
    targets: &NameIndex,
    sources: &NameIndex,
    pair: &NamedPair,
) -> Result<Mapping, BindFault>
    requires targets { length targets.now < 4294967296 }
    requires sources { length sources.now < 4294967296 }
    ensures { IsDue (mapping_named (option_map (λ n. n.now) document.entry) targets.now sources.now pair.now) result }
{
    let target = row_named(alloc, document, targets, &pair.first)?;
    let source = row_named(alloc, document, sources, &pair.second)?;
    Ok(Mapping {
        target,
        source,
        line: pair.first.line,
    })
}

/// The mappings that pairs of names say, or the refusal of the first name that no row has.
pub fn mappings_named(
    alloc: Global,
    document: Option<&Name>,
    targets: &NameIndex,
    sources: &NameIndex,
    pairs: &[NamedPair],
) -> Result<MappingList, BindFault>
    requires targets { length targets.now < 4294967296 }
    requires sources { length sources.now < 4294967296 }
    ensures { IsDue (all_of (mapping_named (option_map (λ n. n.now) document.entry) targets.now sources.now) pairs.now) result }
{
    let mut mappings = MappingList::new(alloc);
    for pair in pairs {
        match mapping_named(alloc, document, targets, sources, pair) {
            Ok(mapping) => {
                let Ok(()) = mappings.push(mapping) else {
                    return Err(BindFault::NoMemory);
                };
            }
            Err(fault) => return Err(fault),
        }
    }
    Ok(mappings)
}
