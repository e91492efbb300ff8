ghost use Rattle.std.specs.Prelude.{◌≡◌, true};
ghost use Rattle.current_tuples.specs.Places.{IsPlaceOf};
ghost use Rattle.order_literals.specs.Numbers.{is_wanted};
ghost use Rattle.order_literals.specs.Said.{Says};
ghost use Rattle.order_literals.specs.Statements.{statements_of};
ghost use Rattle.match_clauses.specs.Claimed.{not_current};
ghost use Rattle.match_clauses.specs.Clauses.{IsSource};

use currency_base::{AttrId, EntId, Lit, RelId};
use current_tuples::last_row;
use order_literals::{Numbering, Wanted, one_literal};
use spec_model::{Completion, Specification};

/// A specification, the numbers of its statements, and a completion of it.
#[derive(Clone, Copy)]
pub(crate) struct Source<'a> {
    pub spec: &'a Specification,
    pub numbering: &'a Numbering,
    pub wanted: &'a Wanted,
    pub completion: &'a Completion,
}

/// The literal that says that the current value of an entity's attribute is not.
pub(crate) fn not_current(source: Source<'_>, rel: RelId, attr: AttrId, ent: EntId) -> Lit
    requires source { IsSource source.spec.now source.numbering.now source.wanted.now source.completion.now }
    requires place { IsPlaceOf source.spec.now.relations rel.0 attr.0 ent.0 }
    requires wanted { is_wanted source.wanted.now.currents rel.0 ≡ true }
    ensures { Says (statements_of source.entry.numbering.now) result
        (not_current source.entry.spec.now.relations source.entry.completion.now rel attr ent) }
{
    one_literal();
    let _relations = source.spec.relations();
    let row = last_row(source.spec, source.completion, rel, attr, ent);
    let name = source.numbering.name(rel, attr, row);
    source.numbering.last(rel, attr, name).negated()
}
