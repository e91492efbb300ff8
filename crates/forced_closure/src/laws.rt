ghost use Rattle.forced_closure.specs.Laws.{ForcedPairsHold, LoopsRuleOut};

use rule_laws::satisfied_by_instances;

/// A law: in every consistent completion each forced pair holds.
pub fn forced_pairs_hold()
    ensures { ForcedPairsHold }
{
    satisfied_by_instances();
}

/// A law: where a row is forced to stand before itself, no completion is consistent.
pub fn loops_rule_out()
    ensures { LoopsRuleOut }
{
    forced_pairs_hold();
}
