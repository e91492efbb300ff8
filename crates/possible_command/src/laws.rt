ghost use Rattle.std.specs.Prelude.{Result};
ghost use Rattle.command_stages.specs.Alike.{AreAlike};
ghost use Rattle.command_stages.specs.declared.done.Done.{Done};
ghost use Rattle.command_stages.specs.declared.trouble.Trouble.{Trouble};
ghost use Rattle.possible_command.specs.Possible.{IsPossibleOf};
ghost use Rattle.program_words.specs.Words.{PossibleSaid};
ghost use Rattle.spec_model.specs.Spec.{Spec};
ghost use Rattle.spec_model.specs.declared.question.Question.{Question};

/// A law: what may hold is told alike, whatever is found.
pub fn one_possible()
    ensures { (s : Spec) (a : PossibleSaid) (question : Question) (x y : Result Done Trouble)
        → IsPossibleOf s a question x → IsPossibleOf s a question y → AreAlike x y }
{}
