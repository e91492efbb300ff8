ghost use Rattle.std.specs.Prelude.{◌<◌, length, OnOk};
ghost use Rattle.currency_base.specs.Lists.{OnlyOnce};
ghost use Rattle.order_clauses.specs.Added.{Adds};
ghost use Rattle.order_clauses.specs.Listing.{given_at, given_labels};

use crate::pushing::push_distinct;
use crate::sayings::Sayings;
use currency_base::{NoMemory, RelId};
use refutation_log::{LabelRef, Steps};

/// Puts the axioms of the given pairs after the steps.
pub(crate) fn given(sayings: &Sayings<'_>, steps: &mut Steps) -> Result<(), NoMemory>
    ensures adds { OnOk result (Adds sayings.now (given_labels sayings.now.spec) steps.old steps.new) }
    ensures once { OnOk result (OnlyOnce (given_labels sayings.now.spec)) }
{
    for rel in 0..sayings.relations() {
        given_in(sayings, steps, RelId(rel as u32))?;
    }
    Ok(())
}

// Those of one relation.
fn given_in(sayings: &Sayings<'_>, steps: &mut Steps, rel: RelId) -> Result<(), NoMemory>
    requires { rel.0 < length sayings.now.spec.relations }
    ensures adds { OnOk result (Adds sayings.now (given_at sayings.now.spec rel.0) steps.old steps.new) }
    ensures once { OnOk result (OnlyOnce (given_at sayings.now.spec rel.0)) }
{
    for pair in sayings.relation(rel).given.iter() {
        let lit = sayings.before(rel, pair.attr, pair.earlier, pair.later);
        let label = LabelRef::Given {
            rel,
            attr: pair.attr,
            earlier: pair.earlier,
            later: pair.later,
        };
        push_distinct(sayings, steps, label, &[lit])?;
    }
    Ok(())
}
