ghost use Rattle.std.specs.Prelude.{◌≡◌, ◌-◌, ◌+◌, ◌^◌, ◌<◌, ◌≤◌, [], length, take, slice_index_or, All, IfSome, IfNone};
ghost use Rattle.entity_rows.specs.Members.{AreEntityRows};
ghost use Rattle.completion_check.specs.Breaks.{AreRows, AreTested, Ascend, NoneBreaks, BreaksFirst, NoChoiceBreaks, IsFirstBreak};

use crate::trial::Trial;
use currency_base::{EntId, RowId, RowList};
use denial_rules::MOST_VARS;

/// The first choice of rows of one entity that breaks the rule, in the order of the rows of the first
/// variable, then the second and so on. The rule's variables are the first of the answer; what follows
/// them says nothing.
///
/// Goes deeper only while the predicates whose variables all have a row hold.
pub(crate) fn first_break(trial: &Trial, members: &[RowList]) -> Option<[RowId; 4]>
    requires few { length trial.now.table + 1 < 2 ^ 32 }
    requires members { AreEntityRows trial.now.table (length members.now) members.now }
    requires entities { All (λ row. row.entity.0 < length members.now) trial.now.table }
    ensures none { IfNone result (NoChoiceBreaks trial.now) }
    ensures some { IfSome result (λ found. IsFirstBreak trial.now (take trial.now.rule.vars found)) }
{
    for (at, row) in trial.table().iter().enumerate() {
        let own = rows_of(members, row.entity);
        let choice = [RowId(at as u32); MOST_VARS];
        if let Some(found) = first_from(trial, own, choice, 1) {
            return Some(found);
        }
    }
    None
}

/// The rows of an entity.
pub(crate) fn rows_of(members: &[RowList], ent: EntId) -> &[RowId]
    requires { ent.0 < length members.now }
    ensures { result.now ≡ slice_index_or members.now ent.0 [] }
{
    members[ent.0 as usize].as_slice()
}

// The first choice that breaks the rule among those that begin with the first `depth` rows of a choice
// and go on with rows of the members.
fn first_from(
    trial: &Trial,
    members: &[RowId],
    choice: [RowId; 4],
    depth: usize,
) -> Option<[RowId; 4]>
    requires room { length choice ≡ 4 }
    requires some { 0 < depth }
    requires within { depth ≤ trial.now.rule.vars }
    requires members { AreRows trial.now.table members.now }
    requires ascend { Ascend members.now }
    requires rows { AreRows trial.now.table (take depth choice) }
    requires tested { AreTested trial.now (depth - 1) (take depth choice) }
    ensures none { IfNone result (NoneBreaks trial.now members.now (trial.now.rule.vars - depth) (take depth choice)) }
    ensures some { IfSome result (λ found. BreaksFirst trial.now members.now (trial.now.rule.vars - depth)
        (take depth choice) (take trial.now.rule.vars found)) }
{
    let vars = trial.vars();
    if !trial.passes(&choice[..depth], depth - 1) {
        return None;
    }
    if depth == vars {
        if trial.concludes(&choice[..depth]) {
            return None;
        }
        return Some(choice);
    }
    for row in members {
        let mut next = choice;
        next[depth] = *row;
        if let Some(found) = first_from(trial, members, next, depth + 1) {
            return Some(found);
        }
    }
    None
}
