ghost use Rattle.std.specs.Prelude.{◌≡◌, ◌≤◌, ◌++◌, ◌∷◌, [], cond, IfOk, OnOk, length};
ghost use Rattle.entity_ground.specs.Choosing.{chosen_from};
ghost use Rattle.entity_ground.specs.Grounds.{grounds_among, has_instance};

use currency_base::{NoMemory, RowId, Rows};
use flat_lists::FlatLists;
use spec_model::{Relation, Rule};
use std::alloc::Global;

/// The choices among the rows of an entity for which a rule has an instance, by trying each: the plain slow
/// program that is the definition.
pub fn plain_grounds(
    alloc: Global,
    rule: &Rule,
    relation: &Relation,
    members: &[RowId],
) -> Result<FlatLists<RowId>, NoMemory>
    requires { length rule.now.predicates ≤ 16 }
    ensures { IfOk result (λ grounds. grounds ≡ grounds_among rule.now relation.now.rows members.now) }
{
    let mut front = Vec::new(alloc);
    let mut grounds = FlatLists::new(alloc);
    let vars = rule.vars as usize;
    match add_tried(
        alloc,
        rule,
        &relation.rows,
        members,
        vars,
        &mut front,
        &mut grounds,
    ) {
        Ok(()) => Ok(grounds),
        Err(NoMemory) => Err(NoMemory),
    }
}

// Adds the choices for which the rule has an instance among those that begin with the front and go on with
// so many of the members.
fn add_tried(
    alloc: Global,
    rule: &Rule,
    table: &Rows,
    members: &[RowId],
    left: usize,
    front: &mut Vec<RowId>,
    grounds: &mut FlatLists<RowId>,
) -> Result<(), NoMemory>
    requires { length rule.now.predicates ≤ 16 }
    ensures grounds { OnOk result (grounds.new ≡ grounds.old ++ chosen_from (has_instance rule.now table.now)
        members.now left front.old.items) }
    ensures front { OnOk result (front.new.items ≡ front.old.items) }
{
    if left == 0 {
        return add_instance(alloc, rule, table, front.as_slice(), grounds);
    }
    for row in members {
        let Ok(()) = front.push(*row) else {
            return Err(NoMemory);
        };
        let Ok(()) = add_tried(alloc, rule, table, members, left - 1, front, grounds) else {
            return Err(NoMemory);
        };
        let _ = front.pop();
    }
    Ok(())
}

// Adds a choice, if the rule has an instance for it.
fn add_instance(
    alloc: Global,
    rule: &Rule,
    table: &Rows,
    choice: &[RowId],
    grounds: &mut FlatLists<RowId>,
) -> Result<(), NoMemory>
    requires { length rule.now.predicates ≤ 16 }
    ensures { OnOk result (grounds.new ≡ grounds.old ++ cond (has_instance rule.now table.now choice.now) (choice.now ∷ []) []) }
{
    match rule.instance(alloc, table, choice) {
        Some(_) => grounds.push(choice),
        None => Ok(()),
    }
}
