ghost use Rattle.std.specs.Prelude.{◌≡◌, All, IfOk, nat_lt};
ghost use Rattle.spec_model.specs.Facts.{IsRelation};
ghost use Rattle.spec_limits.specs.Limits.{order_variables, too_many_variables};

use crate::counts::entity_pairs;
use currency_base::NoMemory;
use spec_model::{Relation, Specification};
use std::alloc::Global;

/// How many variables the orders of a specification may have.
const MOST_VARIABLES: u64 = 4000000;

/// The limit that a specification exceeds by the variables of its orders: one for each attribute and
/// pair of rows of one entity.
pub fn limit_of_variables(alloc: Global, spec: &Specification) -> Result<Option<u8>, NoMemory>
    ensures { IfOk result (λ k. k ≡ too_many_variables spec.now) }
{
    if has_too_many(alloc, spec.relations())? {
        return Ok(Some(10));
    }
    Ok(None)
}

/// Are there more variables than may be?
fn has_too_many(alloc: Global, relations: &[Relation]) -> Result<bool, NoMemory>
    requires { All IsRelation relations.now }
    ensures { IfOk result (λ many. many ≡ nat_lt 4000000 (order_variables relations.now)) }
{
    let mut left = MOST_VARIABLES;
    for relation in relations {
        let rows = relation.rows.as_slice();
        let pairs = entity_pairs(alloc, rows, relation.entities.len())?;
        // A product that is too large for 64 bits is above the bound too.
        let variables = pairs.saturating_mul(relation.attrs.len() as u64);
        if variables > left {
            return Ok(true);
        }
        left -= variables;
    }
    Ok(false)
}
