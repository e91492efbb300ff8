ghost use Rattle.std.specs.Prelude.{Result};
ghost use Rattle.command_stages.specs.Alike.{AreAlike};
ghost use Rattle.command_stages.specs.declared.done.Done.{Done};
ghost use Rattle.command_stages.specs.declared.trouble.Trouble.{Trouble};
ghost use Rattle.program_words.specs.Words.{ExplainSaid};
ghost use Rattle.spec_model.specs.Spec.{Spec};
ghost use Rattle.spec_model.specs.declared.question.Question.{Question};
ghost use Rattle.explain_command.specs.Explained.{IsExplanationOf};

/// A law: what explains a unit is determined, but for which items and completions explain it, and whether the budget was spent.
pub fn one_explanation()
    ensures { (s : Spec) (e : ExplainSaid) (question : Question) (a b : Result Done Trouble)
        → IsExplanationOf s e question a → IsExplanationOf s e question b → AreAlike a b }
{}
