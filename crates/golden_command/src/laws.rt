ghost use Rattle.std.specs.Prelude.{ℕ, List, Result};
ghost use Rattle.command_stages.specs.Alike.{AreAlike};
ghost use Rattle.command_stages.specs.declared.done.Done.{Done};
ghost use Rattle.command_stages.specs.declared.trouble.Trouble.{Trouble};
ghost use Rattle.golden_command.specs.Golden.{IsGoldenDue, IsGoldenFound};
ghost use Rattle.program_words.specs.Words.{GoldenSaid};
ghost use Rattle.spec_model.specs.Spec.{Spec};

use command_stages::one_read;

/// Laws: what is found of the entities of a relation is told alike, whatever it is; and so is what is due for one document.
pub fn one_golden()
    ensures found { (told : List (List ℕ × List ℕ)) (s : Spec) (g : GoldenSaid) (a b : Result Done Trouble)
        → IsGoldenFound told g s a → IsGoldenFound told g s b → AreAlike a b }
    ensures due { (told : List (List ℕ × List ℕ)) (g : GoldenSaid) (a b : Result Done Trouble)
        → IsGoldenDue told g a → IsGoldenDue told g b → AreAlike a b }
{
    one_read();
}
