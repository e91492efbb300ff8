// Edits of copied rows.

ghost use Rattle.std.specs.Prelude.{◌≡◌, ◌<◌, ◌^◌, length, IfOk};
ghost use Rattle.spec_edits.specs.Edits.{IsEditOf};
ghost use Rattle.spec_names.specs.Names.{all_names_of};
ghost use Rattle.session_entries.specs.Entries.{copied_edit, copied_named, mapping_in, row_names};

use bind_faults::{BindFault, find};
use currency_base::{CopyId, ErrorCode, RelId, RowId};
use name_index::NameIndex;
use spec_edits::Edit;
use spec_model::Specification;
use spec_names::SpecNames;
use text_grammar::{Named, NamedPair};

/// The edit of a copied row that names say, or the first fault of these: an unknown copy function, and then an unknown row of its
/// target relation, or else of its source relation. Takes no memory.
pub fn bind_copied(
    names: &SpecNames,
    spec: &Specification,
    add: bool,
    name: &Named,
    mapping: &NamedPair,
) -> Result<Edit, BindFault>
    requires { names.now ≡ all_names_of spec.now }
    ensures value { result ≡ copied_named spec.now add name.now mapping.now }
    ensures there { IfOk result (IsEditOf spec.now) }
{
    let copy = find(names.copies(), name, ErrorCode::UnknownName)?;
    let map = &spec.copies()[copy];
    let targets = row_names(names, spec, map.target());
    let sources = row_names(names, spec, map.source());
    mapping_in(targets, sources, add, CopyId(copy as u32), mapping)
}

/// The names of the rows of a relation, of which there are few enough for ids.
fn row_names<'a>(names: &'a SpecNames, spec: &Specification, rel: RelId) -> &'a NameIndex
    requires names { names.now ≡ all_names_of spec.now }
    requires within { rel.0 < length spec.now.relations }
    ensures value { result.now ≡ row_names spec.now.relations rel }
    ensures few { length result.now < 2 ^ 32 }
{
    let _ = spec.relations();
    &names.relation(rel.0 as usize).rows
}

/// The edit of a copied row between rows of these names, or the refusal of the first that is unknown.
fn mapping_in(
    targets: &NameIndex,
    sources: &NameIndex,
    add: bool,
    copy: CopyId,
    pair: &NamedPair,
) -> Result<Edit, BindFault>
    requires targets { length targets.now < 2 ^ 32 }
    requires sources { length sources.now < 2 ^ 32 }
    ensures { result ≡ mapping_in targets.now sources.now add copy.0 pair.now }
{
    let target = find(targets, &pair.first, ErrorCode::UnknownRow)?;
    let source = find(sources, &pair.second, ErrorCode::UnknownRow)?;
    Ok(copied_edit(add, copy, RowId(target as u32), RowId(source as u32)))
}

/// The edit by which a row is mapped, or is mapped no more.
fn copied_edit(add: bool, copy: CopyId, target: RowId, source: RowId) -> Edit
    ensures { result ≡ copied_edit add copy.0 target source }
{
    if add {
        Edit::MapCopied {
            copy,
            target,
            source,
        }
    } else {
        Edit::UnmapCopied {
            copy,
            target,
            source,
        }
    }
}
