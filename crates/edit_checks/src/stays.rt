// A look at what an edit adds.

ghost use Rattle.std.specs.Prelude.{◌≡◌, true};
ghost use Rattle.edit_checks.specs.Stays.{StaysConsistent};
ghost use Rattle.spec_edits.specs.Edits.{IsEditOf, IsPairAt, IsWithdrawal};
ghost use Rattle.spec_model.specs.Consistent.{IsConsistent};

use crate::mapped::{CopiedRow, keeps_mapped};
use crate::pairs::can_be_asked;
use crate::rules::keeps_rule;
use currency_base::{Pair, RelId};
use ranked_pairs::pair_holds;
use spec_edits::Edit;
use spec_model::{Asked, Completion, Specification};
use std::alloc::Global;

/// Does a consistent completion stay one over an edit? `true` says so: it is told of every withdrawal, of a given pair that is
/// added and that the completion has already, of a rule that is added and that the completion satisfies, and of a copied row that
/// is added, where the completion has that row and each mapped row of its entity in the order of their source rows, at each place
/// of the copy function. `false` says nothing; it is the answer too where memory runs out, which a rule alone takes. Takes time
/// in proportion to the rows of the pair's entity; for a rule, what `satisfies_rule` takes; for a copied row, to the rows of its
/// entity times the places of the copy function times the rows of this entity and of the source row's.
pub fn stays_consistent(
    alloc: Global,
    spec: &Specification,
    edit: &Edit,
    completion: &Completion,
) -> bool
    requires edit { IsEditOf spec.now edit.now }
    requires consistent { IsConsistent spec.now completion.now }
    ensures { result ≡ true → StaysConsistent spec.now edit.now completion.now }
{
    match edit {
        Edit::AddGiven { rel, pair } => is_given(spec, *rel, *pair, completion),
        Edit::AddRule(rule) => keeps_rule(alloc, spec, rule, completion),
        Edit::MapCopied {
            copy,
            target,
            source,
        } => {
            let copied = CopiedRow {
                target: *target,
                source: *source,
            };
            keeps_mapped(spec, completion, *copy, copied)
        }
        _ => is_withdrawal(edit),
    }
}

/// Is an edit a withdrawal?
fn is_withdrawal(edit: &Edit) -> bool
    ensures { result ≡ true → IsWithdrawal edit.now }
{
    match edit {
        Edit::AddGiven { .. } => false,
        Edit::AddRule(_) => false,
        Edit::MapCopied { .. } => false,
        Edit::WithdrawGiven { .. } => true,
        Edit::WithdrawRule(_) => true,
        Edit::UnmapCopied { .. } => true,
    }
}

/// Are the rows of a pair two rows of one entity, which a consistent completion has in this order?
fn is_given(spec: &Specification, rel: RelId, pair: Pair, completion: &Completion) -> bool
    requires pair { IsPairAt spec.now.relations rel.0 pair }
    requires consistent { IsConsistent spec.now completion.now }
    ensures { result ≡ true → StaysConsistent spec.now (Edit.AddGiven rel pair) completion.now }
{
    if !can_be_asked(spec, rel, pair) {
        return false;
    }
    pair_holds(spec, completion, Asked { rel, pair })
}
