ghost use Rattle.std.specs.Prelude.{◌≡◌, List};
ghost use Rattle.currency_base.specs.declared.value.Value.{Value};
ghost use Rattle.query_model.specs.Answers.{AreAnswers, IsAnswer, IsMatch};
ghost use Rattle.query_model.specs.declared.query.Match.{Match};
ghost use Rattle.query_model.specs.declared.query.Query.{Query};

/// Laws of answers: a query has one list of answers over an instance, and what has a match is an answer.
pub fn laws_of_answers()
    ensures determined { (q : Query) (instance : List (List (List Value))) (one other : List (List Value))
        → AreAnswers q instance one → AreAnswers q instance other → one ≡ other }
    ensures matched { (q : Query) (instance : List (List (List Value))) (tuple : List Value) (m : Match)
        → IsMatch q instance tuple m → IsAnswer q instance tuple }
{}
