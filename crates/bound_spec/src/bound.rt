ghost use Rattle.std.specs.Prelude.{◌≡◌};
ghost use Rattle.bound_spec.specs.Growth.{nothing};

use spec_model::Specification;
use spec_names::SpecNames;
use std::alloc::Global;
use std::marker::Model;

/// The specification that the statements so far say, the names by which the next ones find its parts,
/// and how many rows it has. Contracts see the specification.
#[derive(Drop)]
pub struct Bound {
    pub spec: Specification,
    pub names: SpecNames,
    pub rows: usize,
}

impl Model for Bound {
    ghost use Rattle.spec_model.specs.Spec.{Spec};
    ghost use Rattle.bound_spec.specs.Known.{IsKnown};

    ghost Value = { Spec };

    ghost view = { λ b. b.spec };

    ghost invariant = { λ b. IsKnown b.spec b.names b.rows };
}

impl Bound {
    /// No statement is bound yet.
    pub fn new(alloc: Global) -> Bound
        ensures { result ≡ nothing }
    {
        Bound {
            spec: Specification::new(alloc),
            names: SpecNames::new(alloc),
            rows: 0,
        }
    }
}

/// Lets a specification go that is not bound. Called on each way that answers a fault, so that what goes with it is said
/// once.
pub(crate) fn discard(bound: Bound) {}

/// The same of its parts.
pub(crate) fn discard_parts(spec: Specification, names: SpecNames) {}
