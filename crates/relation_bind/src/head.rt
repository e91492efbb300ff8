// What is checked of a declaration before its table is read.

ghost use Rattle.std.specs.Prelude.{◌≡◌};
ghost use Rattle.relation_bind.specs.Steps.{ChecksHead, NamesAttrs};

use crate::declaration::Declaration;
use bind_faults::BindFault;
use currency_base::ErrorCode;
use name_index::NameIndex;
use spec_syntax::AttrTree;
use std::alloc::Global;

/// The names of the attributes of a declaration in which no name is taken.
pub fn check_head(
    alloc: Global,
    taken: &NameIndex,
    declaration: &Declaration,
) -> Result<NameIndex, BindFault>
    ensures { ChecksHead taken.now declaration.now result }
{
    let place = taken.find(&declaration.name.name);
    match place {
        Some(_) => Err(BindFault::at(ErrorCode::DuplicateName, declaration.name)),
        None => attribute_names(alloc, declaration.attrs.as_slice()),
    }
}

/// The names of attributes, of which none may stand twice.
fn attribute_names(alloc: Global, attrs: &[AttrTree]) -> Result<NameIndex, BindFault>
    ensures { NamesAttrs attrs.now result }
{
    let mut names = NameIndex::new(alloc);
    for attr in attrs {
        let name = attr.name.name.duplicate(alloc)?;
        let added = names.add(name)?;
        if !added.is_new {
            return Err(BindFault::at(ErrorCode::DuplicateName, &attr.name));
        }
    }
    Ok(names)
}
