ghost use Rattle.std.specs.Prelude.{◌≡◌, ℕ, List, Result};
ghost use Rattle.command_stages.specs.declared.done.Done.{Done};
ghost use Rattle.command_stages.specs.declared.trouble.Trouble.{Trouble};
ghost use Rattle.forced_command.specs.Forced.{IsForcedDue};

use command_stages::one_read;

/// A law: what is due for the forced pairs of a told document is determined, its text too.
pub fn one_listing()
    ensures { (told : List (List ℕ × List ℕ)) (name : List ℕ) (a b : Result Done Trouble)
        → IsForcedDue told name a → IsForcedDue told name b → a ≡ b }
{
    one_read();
}
