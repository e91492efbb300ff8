// Names that stand twice.

ghost use Rattle.std.specs.Prelude.{◌≡◌, [], Ok};
ghost use Rattle.bind_faults.specs.Faults.{IsDue, unless};
ghost use Rattle.copy_bind.specs.Heads.{repeated, taken};

use bind_faults::BindFault;
use currency_base::ErrorCode;
use name_index::NameIndex;
use std::alloc::Global;
use text_grammar::Named;

/// Refuses a name that is one of these.
pub fn check_free(names: &NameIndex, named: &Named) -> Result<(), BindFault>
    ensures { result ≡ unless (taken names.now named.now) (Ok tt) }
{
    match names.find(&named.name) {
        Some(_) => Err(BindFault::at(ErrorCode::DuplicateName, named)),
        None => Ok(()),
    }
}

/// Refuses the first of these names that stands before in the list.
pub fn check_once(alloc: Global, list: &[Named]) -> Result<(), BindFault>
    ensures { IsDue (unless (repeated [] list.now) (Ok tt)) result }
{
    let mut names = NameIndex::new(alloc);
    for named in list {
        let name = named.name.duplicate(alloc)?;
        let added = names.add(name)?;
        if !added.is_new {
            return Err(BindFault::at(ErrorCode::DuplicateName, named));
        }
    }
    Ok(())
}
