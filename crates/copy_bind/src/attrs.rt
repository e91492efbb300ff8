// The attributes of a side.

ghost use Rattle.std.specs.Prelude.{◌≡◌, ◌<◌, length};
ghost use Rattle.bind_faults.specs.Faults.{IsDue, all_of};
ghost use Rattle.copy_bind.specs.Heads.{attr_named};

use crate::side::AttrIdList;
use bind_faults::{BindFault, find};
use currency_base::{AttrId, ErrorCode};
use name_index::NameIndex;
use std::alloc::Global;
use text_grammar::Named;

/// The attribute of a name, or the refusal of an unknown one.
fn attr_named(names: &NameIndex, named: &Named) -> Result<AttrId, BindFault>
    requires { length names.now < 4294967296 }
    ensures { result ≡ attr_named names.now named.now }
{
    let place = find(names, named, ErrorCode::UnknownName)?;
    Ok(AttrId(place as u32))
}

/// The attributes of these names.
pub fn attrs_named(
    alloc: Global,
    names: &NameIndex,
    list: &[Named],
) -> Result<AttrIdList, BindFault>
    requires { length names.now < 4294967296 }
    ensures { IsDue (all_of (attr_named names.now) list.now) result }
{
    let mut attrs = AttrIdList::new(alloc);
    for named in list {
        match attr_named(names, named) {
            Ok(attr) => {
                let Ok(()) = attrs.push(attr) else {
                    return Err(BindFault::NoMemory);
                };
            }
            Err(fault) => return Err(fault),
        }
    }
    Ok(attrs)
}
