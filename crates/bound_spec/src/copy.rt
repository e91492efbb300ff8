ghost use Rattle.std.specs.Prelude.{◌≡◌, ◌++◌, ◌∷◌, [], None, map, Contains, IfOk, OnOk};
ghost use Rattle.bind_faults.specs.Faults.{IsDue, IsReadFault};
ghost use Rattle.spec_model.specs.Facts.{IsCopyAmong};
ghost use Rattle.spec_limits.specs.Limits.{exceeded};
ghost use Rattle.spec_names.specs.Names.{all_names_of};
ghost use Rattle.bound_spec.specs.Growth.{limited, with_copy};

use crate::bound::{Bound, discard, discard_parts};
use crate::laws::is_specification;
use bind_faults::BindFault;
use currency_base::NoMemory;
use spec_limits::limit_with_copy;
use spec_model::{CopyMap, Specification};
use spec_names::SpecNames;
use std::alloc::Global;

/// Adds a copy function after the others, unless a limit is then exceeded.
pub fn add_copy(alloc: Global, bound: Bound, copy: CopyMap) -> Result<Bound, BindFault>
    requires fits { IsCopyAmong bound.relations copy }
    requires fresh { Contains (map (λ c. c.name) bound.copies) copy.name → ⊥ }
    ensures due { IsDue (limited (with_copy bound copy)) result }
    ensures reads { IsReadFault result → ⊥ }
{
    match limit_with_copy(&bound.spec, &copy) {
        Some(limit) => {
            discard(bound);
            Err(BindFault::Limit(limit))
        }
        None => match with_copy(alloc, bound, copy) {
            Ok(bound) => Ok(bound),
            Err(NoMemory) => Err(BindFault::NoMemory),
        },
    }
}

/// Adds a copy function with which no limit is exceeded.
fn with_copy(alloc: Global, bound: Bound, copy: CopyMap) -> Result<Bound, NoMemory>
    requires fits { IsCopyAmong bound.relations copy }
    requires fresh { Contains (map (λ c. c.name) bound.copies) copy.name → ⊥ }
    requires within { exceeded (with_copy bound copy) ≡ None }
    ensures { IfOk result (λ new. new ≡ with_copy bound copy) }
{
    let Bound {
        mut spec,
        mut names,
        rows,
    } = bound;
    match put_copy(alloc, &mut spec, &mut names, copy) {
        Ok(()) => Ok(Bound { spec, names, rows }),
        Err(NoMemory) => {
            discard_parts(spec, names);
            Err(NoMemory)
        }
    }
}

/// Puts a copy function after the others, and its name after theirs.
fn put_copy(
    alloc: Global,
    spec: &mut Specification,
    names: &mut SpecNames,
    copy: CopyMap,
) -> Result<(), NoMemory>
    requires fits { IsCopyAmong spec.old.relations copy }
    requires fresh { Contains (map (λ c. c.name) spec.old.copies) copy.name → ⊥ }
    requires within { exceeded spec.old ≡ None }
    requires names { names.old ≡ all_names_of spec.old }
    ensures spec { OnOk result (spec.new ≡ with_copy spec.old copy) }
    ensures names { OnOk result (names.new ≡ record names.old { copies = names.old.copies ++ copy.name ∷ [] }) }
{
    is_specification(spec);
    let name = copy.name().duplicate(alloc)?;
    spec.add_copy(copy)?;
    names.add_copy(name)
}
