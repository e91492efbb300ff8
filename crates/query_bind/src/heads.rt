// Variables of the head that stand in no atom of some disjunct.

ghost use Rattle.std.specs.Prelude.{◌≡◌, not, is_some, map, IfOk};
ghost use Rattle.std.specs.List.{list_any};
ghost use Rattle.bind_faults.specs.Faults.{first_of};
ghost use Rattle.spec_names.specs.Names.{place_of};
ghost use Rattle.query_bind.specs.Queried.{missing, unsafe_code, vars_of};

use crate::variables::vars_of_each;
use bind_faults::BindFault;
use currency_base::{ErrorCode, Name, NoMemory};
use name_index::NameIndex;
use query_syntax::QueryTree;
use std::alloc::Global;
use text_grammar::Named;

/// The code of a variable that stands in no atom of a disjunct.
pub fn unsafe_code() -> ErrorCode
    ensures { result ≡ unsafe_code }
{
    ErrorCode::UnsafeVariable
}

/// The refusal of the first variable of the head that stands in no atom of some disjunct.
pub fn head_fault(alloc: Global, tree: &QueryTree) -> Result<Option<BindFault>, NoMemory>
    ensures { IfOk result (λ fault. fault ≡ first_of (missing (map vars_of tree.now.disjuncts)) tree.now.head) }
{
    let each = vars_of_each(alloc, tree.disjuncts.as_slice())?;
    Ok(first_missing(each.as_slice(), tree.head.as_slice()))
}

/// The refusal of the first variable of the head that is not among those of each disjunct.
fn first_missing(each: &[NameIndex], head: &[Named]) -> Option<BindFault>
    ensures { result ≡ first_of (missing each.now) head.now }
{
    for named in head {
        if let Some(fault) = missing(each, named) {
            return Some(fault);
        }
    }
    None
}

/// The refusal of a variable of the head that is not among those of each disjunct.
fn missing(each: &[NameIndex], named: &Named) -> Option<BindFault>
    ensures { result ≡ missing each.now named.now }
{
    if some_lack(each, &named.name) {
        Some(BindFault::at(unsafe_code(), named))
    } else {
        None
    }
}

/// Is there one that lacks the name?
fn some_lack(each: &[NameIndex], name: &Name) -> bool
    ensures { result ≡ list_any (λ vars. not (is_some (place_of vars name.now))) each.now }
{
    for vars in each {
        if vars.find(name).is_none() {
            return true;
        }
    }
    false
}
