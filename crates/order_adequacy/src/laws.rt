ghost use Rattle.order_adequacy.specs.Laws.{AxiomsAreTrue, TruthsAreModels, TruthsAreThere, ModelsAreCompletions, ModelsAreOne, TruthsRank, RankingsAreOne};

use rule_laws::satisfied_by_instances;

/// Laws: every axiom is true in every consistent completion, so the truth of the statements in one makes each
/// axiom's clause true; and there is such a truth.
pub fn axioms_are_true()
    ensures axioms { AxiomsAreTrue }
    ensures models { TruthsAreModels }
    ensures truths { TruthsAreThere }
{
    satisfied_by_instances();
}

/// Laws: each assignment that makes the axioms true and ranks the rows is the truth in a consistent completion,
/// and in no other; the truth in a completion puts the rows in its order, and each assignment puts them in one.
pub fn models_are_completions()
    ensures completions { ModelsAreCompletions }
    ensures one { ModelsAreOne }
    ensures ranked { TruthsRank }
    ensures rankings { RankingsAreOne }
{
    satisfied_by_instances();
}
