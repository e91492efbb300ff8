// How large a query may be.

ghost use Rattle.std.specs.Prelude.{◌≡◌, IfOk};
ghost use Rattle.std.specs.List.{count_by, list_any};
ghost use Rattle.query_bind.specs.Queried.{is_atom, is_large, is_test, too_large};

use crate::variables::vars_of;
use bind_faults::BindFault;
use currency_base::NoMemory;
use query_syntax::{DisjunctTree, PartTree};
use std::alloc::Global;

/// What is above limit 12: more than 16 disjuncts, or of one of them more than 8 atoms, 16 comparisons or 32
/// variables.
pub fn too_large(alloc: Global, disjuncts: &[DisjunctTree]) -> Result<Option<BindFault>, NoMemory>
    ensures { IfOk result (λ fault. fault ≡ too_large disjuncts.now) }
{
    if disjuncts.len() > 16 || any_large(alloc, disjuncts)? {
        Ok(Some(BindFault::Limit(12)))
    } else {
        Ok(None)
    }
}

/// Is one of the disjuncts too large?
fn any_large(alloc: Global, disjuncts: &[DisjunctTree]) -> Result<bool, NoMemory>
    ensures { IfOk result (λ is. is ≡ list_any is_large disjuncts.now) }
{
    for disjunct in disjuncts {
        if is_large(alloc, disjunct)? {
            return Ok(true);
        }
    }
    Ok(false)
}

/// Is the disjunct too large?
fn is_large(alloc: Global, disjunct: &DisjunctTree) -> Result<bool, NoMemory>
    ensures { IfOk result (λ is. is ≡ is_large disjunct.now) }
{
    let parts = disjunct.parts.as_slice();
    if count_atoms(parts) > 7 || count_tests(parts) > 16 {
        return Ok(true);
    }
    let vars = vars_of(alloc, disjunct)?;
    Ok(vars.names().len() > 32)
}

/// How many of these are atoms.
fn count_atoms(parts: &[PartTree]) -> usize
    ensures { result ≡ count_by is_atom parts.now }
{
    let mut count = 0;
    for part in parts {
        if is_atom(part) {
            count += 1;
        }
    }
    count
}

/// How many of these are comparisons.
fn count_tests(parts: &[PartTree]) -> usize
    ensures { result ≡ count_by is_test parts.now }
{
    let mut count = 0;
    for part in parts {
        if is_test(part) {
            count += 1;
        }
    }
    count
}

/// Is it an atom?
fn is_atom(part: &PartTree) -> bool
    ensures { result ≡ is_atom part.now }
{
    match part {
        PartTree::Atom(_) => true,
        PartTree::Test(_) => false,
    }
}

/// Is it a comparison?
fn is_test(part: &PartTree) -> bool
    ensures { result ≡ is_test part.now }
{
    match part {
        PartTree::Atom(_) => false,
        PartTree::Test(_) => true,
    }
}
