ghost use Rattle.std.specs.Prelude.{IfOk};
ghost use Rattle.entity_ground.specs.Grounds.{AreRuleGrounds, AreCopyGrounds};

use crate::copies::copy_grounds;
use crate::relations::entity_lists_of;
use crate::rules::rule_grounds;
use copied_pairs::CopiedPairList;
use currency_base::{ItemList, NoMemory, RowId};
use flat_lists::FlatLists;
use spec_model::Specification;
use std::alloc::Global;

/// The grounds of a specification.
#[derive(Drop)]
pub struct Grounds {
    /// For each rule the choices of one row per variable, all of one entity, for which it has an instance:
    /// entity by entity, and there by the first variable's row, then by the second's, and so on.
    pub rules: ItemList<FlatLists<RowId>>,
    /// For each copy function the pairs of rows that it speaks of at each of its places.
    pub copies: ItemList<CopiedPairList>,
}

/// The grounds of a specification. Of a rule the rows are found variable by variable: through an index where
/// the rule compares a value of the variable's row for equality with one that is known by then, and no
/// further than the conditions hold whose variables all have a row. So the work is near the number of
/// grounds. Of a copy function the pairs of a mapped row and a row of its entity are looked at.
pub fn instances(alloc: Global, spec: &Specification) -> Result<Grounds, NoMemory>
    ensures rules { IfOk result (λ g. AreRuleGrounds spec.now g.rules) }
    ensures copies { IfOk result (λ g. AreCopyGrounds spec.now g.copies) }
{
    let relations = spec.relations();
    let lists = match entity_lists_of(alloc, relations) {
        Ok(lists) => lists,
        Err(NoMemory) => return Err(NoMemory),
    };
    let rules = match rule_grounds(alloc, relations, lists.as_slice(), spec.rules()) {
        Ok(rules) => rules,
        Err(NoMemory) => return Err(NoMemory),
    };
    let copies = match copy_grounds(alloc, relations, lists.as_slice(), spec.copies()) {
        Ok(copies) => copies,
        Err(NoMemory) => return Err(NoMemory),
    };
    Ok(Grounds { rules, copies })
}
