ghost use Rattle.std.specs.Prelude.{ℕ, List, Result};
ghost use Rattle.command_stages.specs.Alike.{AreAlike};
ghost use Rattle.command_stages.specs.declared.done.Done.{Done};
ghost use Rattle.command_stages.specs.declared.trouble.Trouble.{Trouble};
ghost use Rattle.program_words.specs.Words.{ConflictsSaid};
ghost use Rattle.spec_model.specs.Spec.{Spec};
ghost use Rattle.conflicts_command.specs.Found.{IsConflictsDue, IsConflictsFound};

use command_stages::one_read;

/// Laws: what is found of the smallest parts of a specification is told alike, whatever it is; and so is what is due
/// for one document.
pub fn one_conflicts()
    ensures found { (s : Spec) (c : ConflictsSaid) (a b : Result Done Trouble)
        → IsConflictsFound s c a → IsConflictsFound s c b → AreAlike a b }
    ensures due { (told : List (List ℕ × List ℕ)) (c : ConflictsSaid) (a b : Result Done Trouble)
        → IsConflictsDue told c a → IsConflictsDue told c b → AreAlike a b }
{
    one_read();
}
