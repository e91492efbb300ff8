ghost use Rattle.std.specs.Prelude.{◌≡◌, ◌∷◌, ◌++◌, [], None, IfOk};
ghost use Rattle.spec_model.specs.Facts.{IsRelation};
ghost use Rattle.spec_limits.specs.Limits.{exceeded, is_long, rows_together};

use crate::counts::is_crowded;
use currency_base::NoMemory;
use spec_model::{CopyMap, Relation, Rule, Specification};
use std::alloc::Global;

/// How many relations there may be.
const MOST_RELATIONS: usize = 64;

/// How many attributes a relation may have.
const MOST_ATTRS: usize = 32;

/// How many rows all relations may have together.
const MOST_ROWS: usize = 100000;

/// How many rules there may be.
const MOST_RULES: usize = 256;

/// How many variables a rule may have.
const MOST_VARS: u32 = 4;

/// How many predicates a rule may have.
const MOST_PREDICATES: usize = 16;

/// How many copy functions there may be.
const MOST_COPIES: usize = 64;

/// The limit that a specification within all limits exceeds with one more relation; `rows` is how many
/// rows it has so far.
pub fn limit_with_relation(
    alloc: Global,
    spec: &Specification,
    rows: usize,
    relation: &Relation,
) -> Result<Option<u8>, NoMemory>
    requires within { exceeded spec.now ≡ None }
    requires rows { rows ≡ rows_together spec.now.relations }
    requires relation { IsRelation relation.now }
    ensures { IfOk result (λ k. k ≡ exceeded (record spec.now { relations = spec.now.relations ++ relation.now ∷ [] })) }
{
    if spec.relations().len() >= MOST_RELATIONS {
        return Ok(Some(4));
    }
    if relation.attrs.len() > MOST_ATTRS {
        return Ok(Some(5));
    }
    if relation.rows.len() > MOST_ROWS - rows {
        return Ok(Some(6));
    }
    if is_crowded(alloc, relation.rows.as_slice(), relation.entities.len())? {
        return Ok(Some(7));
    }
    Ok(None)
}

/// The limit that a specification within all limits exceeds with one more rule. Takes no memory.
pub fn limit_with_rule(spec: &Specification, rule: &Rule) -> Option<u8>
    requires { exceeded spec.now ≡ None }
    ensures { result ≡ exceeded (record spec.now { rules = spec.now.rules ++ rule.now ∷ [] }) }
{
    if spec.rules().len() >= MOST_RULES {
        return Some(8);
    }
    if is_long(rule) {
        return Some(8);
    }
    None
}

/// Has a rule more variables or predicates than a rule may have?
fn is_long(rule: &Rule) -> bool
    ensures { result ≡ is_long rule.now }
{
    rule.vars > MOST_VARS || rule.predicates.len() > MOST_PREDICATES
}

/// The limit that a specification within all limits exceeds with one more copy function. Takes no memory.
pub fn limit_with_copy(spec: &Specification, copy: &CopyMap) -> Option<u8>
    requires { exceeded spec.now ≡ None }
    ensures { result ≡ exceeded (record spec.now { copies = spec.now.copies ++ copy.now ∷ [] }) }
{
    if spec.copies().len() >= MOST_COPIES {
        return Some(9);
    }
    None
}
