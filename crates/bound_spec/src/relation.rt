ghost use Rattle.std.specs.Prelude.{◌≡◌, ◌++◌, ◌∷◌, [], None, Contains, IfOk, OnOk};
ghost use Rattle.bind_faults.specs.Faults.{IsDue, IsReadFault};
ghost use Rattle.spec_limits.specs.Limits.{exceeded};
ghost use Rattle.spec_model.specs.Facts.{IsRelation};
ghost use Rattle.spec_names.specs.Names.{all_names_of, names_of};
ghost use Rattle.bound_spec.specs.Growth.{limited, relation_names, with_relation};

use crate::bound::{Bound, discard, discard_parts};
use crate::laws::is_specification;
use bind_faults::BindFault;
use currency_base::NoMemory;
use spec_limits::limit_with_relation;
use spec_model::{Relation, Specification};
use spec_names::{RelationNames, SpecNames};
use std::alloc::Global;

/// Adds a relation, with the names of its parts, after the others, unless a limit is then exceeded.
pub fn add_relation(
    alloc: Global,
    bound: Bound,
    relation: Relation,
    parts: RelationNames,
) -> Result<Bound, BindFault>
    requires facts { IsRelation relation }
    requires parts { parts ≡ names_of relation }
    requires fresh { Contains (relation_names bound) relation.name → ⊥ }
    ensures due { IsDue (limited (with_relation bound relation)) result }
    ensures reads { IsReadFault result → ⊥ }
{
    match limit_with_relation(alloc, &bound.spec, bound.rows, &relation) {
        Ok(None) => match with_relation(alloc, bound, relation, parts) {
            Ok(bound) => Ok(bound),
            Err(NoMemory) => Err(BindFault::NoMemory),
        },
        Ok(Some(limit)) => {
            discard(bound);
            Err(BindFault::Limit(limit))
        }
        Err(NoMemory) => {
            discard(bound);
            Err(BindFault::NoMemory)
        }
    }
}

/// Adds a relation with which no limit is exceeded.
fn with_relation(
    alloc: Global,
    bound: Bound,
    relation: Relation,
    parts: RelationNames,
) -> Result<Bound, NoMemory>
    requires facts { IsRelation relation }
    requires parts { parts ≡ names_of relation }
    requires fresh { Contains (relation_names bound) relation.name → ⊥ }
    requires within { exceeded (with_relation bound relation) ≡ None }
    ensures { IfOk result (λ new. new ≡ with_relation bound relation) }
{
    let Bound {
        mut spec,
        mut names,
        rows,
    } = bound;
    let rows = rows + relation.rows.len();
    match put_relation(alloc, &mut spec, &mut names, relation, parts) {
        Ok(()) => Ok(Bound { spec, names, rows }),
        Err(NoMemory) => {
            discard_parts(spec, names);
            Err(NoMemory)
        }
    }
}

/// Puts a relation after the others, and the names of its parts after theirs.
fn put_relation(
    alloc: Global,
    spec: &mut Specification,
    names: &mut SpecNames,
    relation: Relation,
    parts: RelationNames,
) -> Result<(), NoMemory>
    requires facts { IsRelation relation }
    requires fresh { Contains (relation_names spec.old) relation.name → ⊥ }
    requires within { exceeded spec.old ≡ None }
    requires names { names.old ≡ all_names_of spec.old }
    ensures spec { OnOk result (spec.new ≡ with_relation spec.old relation) }
    ensures relations { OnOk result (names.new.relations ≡ names.old.relations ++ relation.name ∷ []) }
    ensures each { OnOk result (names.new.each ≡ names.old.each ++ parts ∷ []) }
    ensures rules { names.new.rules ≡ names.old.rules }
    ensures copies { names.new.copies ≡ names.old.copies }
{
    is_specification(spec);
    let name = relation.name.duplicate(alloc)?;
    spec.add_relation(relation)?;
    names.add(name, parts)
}
