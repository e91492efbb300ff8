ghost use Rattle.std.specs.Prelude.{◌≡◌, ◌<◌, ◌≤◌, All, IfOk, length};
ghost use Rattle.bind_faults.specs.Faults.{IsDue, IsReadFault};
ghost use Rattle.spec_names.specs.Names.{all_names_of};
ghost use Rattle.spec_model.specs.Queries.{IsQueryOn};
ghost use Rattle.query_bind.specs.Queried.{made, queried, queried_on, resolved, vars_of};

use crate::heads::head_fault;
use crate::limits::too_large;
use crate::mismatches::first_mismatch;
use crate::relations::first_unknown;
use crate::resolve::disjuncts_of;
use bind_faults::BindFault;
use name_index::NameIndex;
use query_model::Query;
use query_syntax::QueryTree;
use spec_model::{Relation, Specification};
use spec_names::SpecNames;
use std::alloc::Global;

/// The query that a tree says of a specification, or its first fault. Each of these goes over the whole
/// query in the order of the text: a relation that is unknown; then an atom that has not one place more than
/// its relation has attributes, or a place or a comparison of two kinds; then what is above limit 12, more
/// than 16 disjuncts, or of one of them more than 8 atoms, 32 variables or 16 comparisons; then a variable of
/// the head that stands in no atom of some disjunct; then a variable of a comparison that stands in no atom
/// of its disjunct.
pub fn bind_query(
    alloc: Global,
    names: &SpecNames,
    spec: &Specification,
    tree: &QueryTree,
) -> Result<Query, BindFault>
    requires { names.now ≡ all_names_of spec.now }
    ensures due { IsDue (queried spec.now tree.now) result }
    ensures fits { IfOk result (IsQueryOn spec.now.relations) }
    ensures reads { IsReadFault result → ⊥ }
{
    match bind_named(alloc, names, spec, tree) {
        Ok(query) => Ok(query),
        Err(fault) => Err(fault),
    }
}

/// The same.
fn bind_named(
    alloc: Global,
    names: &SpecNames,
    spec: &Specification,
    tree: &QueryTree,
) -> Result<Query, BindFault>
    requires { names.now ≡ all_names_of spec.now }
    ensures { IsDue (queried spec.now tree.now) result }
{
    bind_on(alloc, names.relations(), spec.relations(), tree)
}

/// The query that a tree says of relations of these names.
#[tactic(auto, unfolding(crate::specs::Queried::queried_on))]
pub fn bind_on(
    alloc: Global,
    names: &NameIndex,
    relations: &[Relation],
    tree: &QueryTree,
) -> Result<Query, BindFault>
    requires { length names.now < 4294967296 }
    ensures { IsDue (queried_on names.now relations.now tree.now) result }
{
    let disjuncts = tree.disjuncts.as_slice();
    if let Some(fault) = first_unknown(names, disjuncts) {
        return Err(fault);
    }
    if let Some(fault) = first_mismatch(alloc, names, relations, tree.head.as_slice(), disjuncts)? {
        return Err(fault);
    }
    match too_large(alloc, disjuncts)? {
        Some(fault) => Err(fault),
        None => resolved(alloc, names, tree),
    }
}

/// The query that a tree says, where all of it is small enough.
fn resolved(alloc: Global, names: &NameIndex, tree: &QueryTree) -> Result<Query, BindFault>
    requires names { length names.now < 4294967296 }
    requires vars { All (λ d. length (vars_of d) ≤ 32) tree.now.disjuncts }
    ensures { IsDue (resolved names.now tree.now) result }
{
    match head_fault(alloc, tree)? {
        Some(fault) => Err(fault),
        None => made(alloc, names, tree),
    }
}

/// The query that a tree says, where its head is bound too.
fn made(alloc: Global, names: &NameIndex, tree: &QueryTree) -> Result<Query, BindFault>
    requires names { length names.now < 4294967296 }
    requires vars { All (λ d. length (vars_of d) ≤ 32) tree.now.disjuncts }
    ensures { IsDue (made names.now tree.now) result }
{
    match disjuncts_of(
        alloc,
        names,
        tree.head.as_slice(),
        tree.disjuncts.as_slice(),
    ) {
        Ok(disjuncts) => Ok(Query { disjuncts }),
        Err(fault) => Err(fault),
    }
}
