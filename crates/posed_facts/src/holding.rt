ghost use Rattle.std.specs.Prelude.{◌≡◌, true, false, All};
ghost use Rattle.posed_facts.specs.Facts.{FactIn, IsCurrent, IsPlaced, IsPosable};
ghost use Rattle.spec_model.specs.Completion.{IsCompletion};

use crate::Fact;
use crate::read::{row_of, value_of};
use currency_base::Cmp;
use current_tuples::last;
use match_premises::Premise;
use ranked_pairs::pair_holds;
use spec_model::{Completion, Specification};

/// Does a fact hold in a completion? Takes no memory; for a current value no time that grows with the specification, for a
/// pair in proportion to the rows of the entity.
pub fn holds_in(spec: &Specification, fact: &Fact, completion: &Completion) -> bool
    requires fact { IsPosable spec.now.relations fact.now }
    requires completion { IsCompletion spec.now.relations completion.now }
    ensures holds { result ≡ true → FactIn spec.now.relations fact.now completion.now }
    ensures fails { result ≡ false → FactIn spec.now.relations fact.now completion.now → ⊥ }
{
    match fact {
        Fact::Before(pair) => pair_holds(spec, completion, *pair),
        Fact::Current(claim) => is_current(spec, *claim, completion),
        Fact::Lacks(claims) => lacks_one(spec, claims.as_slice(), completion),
    }
}

/// Is one of the claimed values not the current one?
fn lacks_one(spec: &Specification, claims: &[Premise], completion: &Completion) -> bool
    requires claims { All (IsPlaced spec.now.relations) claims.now }
    requires completion { IsCompletion spec.now.relations completion.now }
    ensures lacks { result ≡ true → All (λ p. IsCurrent spec.now.relations p completion.now) claims.now → ⊥ }
    ensures all { result ≡ false → All (λ p. IsCurrent spec.now.relations p completion.now) claims.now }
{
    for claim in claims {
        if !is_current(spec, *claim, completion) {
            return true;
        }
    }
    false
}

/// Is the claimed value the current one?
fn is_current(spec: &Specification, claim: Premise, completion: &Completion) -> bool
    requires claim { IsPlaced spec.now.relations claim }
    requires completion { IsCompletion spec.now.relations completion.now }
    ensures current { result ≡ true → IsCurrent spec.now.relations claim completion.now }
    ensures other { result ≡ false → IsCurrent spec.now.relations claim completion.now → ⊥ }
{
    let entity = row_of(spec, claim).entity;
    let current = last(spec, completion, claim.rel, claim.attr, entity);
    current.test(Cmp::Eq, value_of(spec, claim))
}
