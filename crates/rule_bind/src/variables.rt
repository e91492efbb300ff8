ghost use Rattle.std.specs.Prelude.{◌≡◌, [], IfOk, OnOk};
ghost use Rattle.bind_faults.specs.Faults.{or_else};
ghost use Rattle.rule_bind.specs.Ruled.{names_of_vars, repeated, taken, with_name};

use bind_faults::BindFault;
use currency_base::{ErrorCode, NoMemory};
use name_index::NameIndex;
use std::alloc::Global;
use text_grammar::Named;

/// The names of a rule's variables, and the refusal of the first that is listed twice.
#[derive(Drop)]
pub struct Variables {
    pub names: NameIndex,
    pub repeated: Option<BindFault>,
}

impl Variables {
    /// The variables that are listed.
    pub fn of(alloc: Global, vars: &[Named]) -> Result<Variables, NoMemory>
        ensures names { IfOk result (λ v. v.names ≡ names_of_vars [] vars.now) }
        ensures repeated { IfOk result (λ v. v.repeated ≡ repeated [] vars.now) }
    {
        let mut names = NameIndex::new(alloc);
        let mut repeated = None;
        for named in vars {
            let fault = add(alloc, &mut names, named)?;
            repeated = or_else(repeated, fault);
        }
        Ok(Variables { names, repeated })
    }
}

/// Adds a name, or answers its refusal where it is there.
fn add(alloc: Global, names: &mut NameIndex, named: &Named) -> Result<Option<BindFault>, NoMemory>
    ensures fault { IfOk result (λ fault. fault ≡ taken names.old named.now) }
    ensures names { OnOk result (names.new ≡ with_name names.old named.now.name) }
{
    let added = names.add(named.name.duplicate(alloc)?)?;
    if added.is_new {
        return Ok(None);
    }
    Ok(Some(BindFault::at(ErrorCode::DuplicateName, named)))
}

/// The first of two refusals.
pub fn or_else(first: Option<BindFault>, later: Option<BindFault>) -> Option<BindFault>
    ensures { result ≡ or_else first later }
{
    match first {
        None => later,
        Some(fault) => Some(fault),
    }
}
