ghost use Rattle.std.specs.Prelude.{◌≡◌, length, IfSome, IfNone};
ghost use Rattle.entity_rows.specs.Members.{AreEntityRows};
ghost use Rattle.denial_rules.specs.Rules.{IsRuleOn};
ghost use Rattle.spec_model.specs.Facts.{IsRelation, kinds_of};
ghost use Rattle.completion_check.specs.Breaks.{NoChoiceBreaks, IsFirstBreak, tried};
ghost use Rattle.completion_check.specs.Room.{HasPlaces};

use crate::relations::RelationPlaces;
use crate::search::first_break;
use crate::trial::Trial;
use currency_base::RowList;
use denial_rules::{Binding, Rule};
use spec_model::Relation;
use std::alloc::Global;

/// The first choice of rows of a relation that breaks a rule, by the places of the rows. Takes no memory.
pub(crate) fn broken_rows(
    alloc: Global,
    rule: &Rule,
    relation: &Relation,
    places: &RelationPlaces,
    members: &[RowList],
) -> Option<Binding>
    requires rule { IsRuleOn (kinds_of relation.now) rule.now }
    requires relation { IsRelation relation.now }
    requires places { HasPlaces relation.now places.now }
    requires members { AreEntityRows relation.now.rows (length relation.now.entities) members.now }
    ensures none { IfNone result (NoChoiceBreaks (tried rule.now relation.now places.now)) }
    ensures some { IfSome result (IsFirstBreak (tried rule.now relation.now places.now)) }
{
    let trial = Trial {
        rule,
        table: relation.rows.as_slice(),
        places,
    };
    match first_break(&trial, members) {
        Some(rows) => Some(Binding::of(alloc, &rows[..trial.vars()])),
        None => None,
    }
}
