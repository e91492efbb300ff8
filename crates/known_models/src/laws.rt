ghost use Rattle.known_models.specs.Laws.{KnownIsModel, KnownMakesTrue, KnownRanks, ValuesAreModels};

use order_adequacy::models_are_completions;
use order_literals::{one_literal, pairs_are_decided};
use rule_laws::satisfied_by_instances;

/// Laws: where every part of a known model is done, its truths put the rows in the order of its completion, are the truth in
/// it, and make each axiom true; and the completion is consistent.
pub fn known_is_model()
    ensures ranks { KnownRanks }
    ensures model { KnownIsModel }
    ensures axioms { KnownMakesTrue }
{
    pairs_are_decided();
    satisfied_by_instances();
    models_are_completions();
}

/// A law: values by which the axioms from the start are true, as they stand among the steps of a log, are a model of a part.
pub fn values_are_models()
    ensures { ValuesAreModels }
{
    one_literal();
}
