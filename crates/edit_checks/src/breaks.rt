// A look at one given pair.

ghost use Rattle.std.specs.Prelude.{◌≡◌, slice_get, Contains, Some, true};
ghost use Rattle.edit_checks.specs.Stays.{IsTurned};
ghost use Rattle.spec_model.specs.Completion.{HasShape};
ghost use Rattle.spec_model.specs.Consistent.{IsConsistent};
ghost use Rattle.spec_model.specs.Facts.{IsRelation};

use currency_base::{Pair, RelId, RowId};
use spec_model::{Asked, Completion, Relation, Specification};

/// Is a pair given, and does a completion have its rows the other way round? `true` says that the completion is not
/// consistent, `false` nothing. Takes no memory, and time in proportion to the rows of the pair's entity and to the
/// logarithm of the given pairs.
pub fn breaks_given(spec: &Specification, asked: Asked, completion: &Completion) -> bool
    requires { HasShape spec.now.relations completion.now }
    ensures { result ≡ true → IsConsistent spec.now completion.now → ⊥ }
{
    let relations = spec.relations();
    let at = asked.rel.0 as usize;
    if at >= relations.len() || !relations[at].given.has(asked.pair) {
        return false;
    }
    breaks_pair(spec, &relations[at], asked, completion)
}

/// The same of a pair that is given.
fn breaks_pair(
    spec: &Specification,
    relation: &Relation,
    asked: Asked,
    completion: &Completion,
) -> bool
    requires shape { HasShape spec.now.relations completion.now }
    requires relation { slice_get spec.now.relations asked.rel.0 ≡ Some relation.now }
    requires facts { IsRelation relation.now }
    requires given { Contains relation.now.given asked.pair }
    ensures { result ≡ true → IsConsistent spec.now completion.now → ⊥ }
{
    let pair = asked.pair;
    let ent = relation.rows.row(pair.earlier).entity;
    is_turned(completion.ranking(asked.rel, pair.attr, ent), pair)
}

/// Is the later row of a pair in a list, and the earlier not before it?
fn is_turned(list: &[RowId], pair: Pair) -> bool
    ensures { result ≡ true → IsTurned list.now pair }
{
    for listed in list {
        if *listed == pair.earlier {
            return false;
        }
        if *listed == pair.later {
            return true;
        }
    }
    false
}
