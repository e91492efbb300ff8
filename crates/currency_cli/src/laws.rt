ghost use Rattle.std.specs.Prelude.{◌≡◌, ℕ, List, Result, Some};
ghost use Rattle.command_stages.specs.Alike.{AreAlike};
ghost use Rattle.command_stages.specs.declared.done.Done.{Done};
ghost use Rattle.command_stages.specs.declared.trouble.Trouble.{Trouble};
ghost use Rattle.currency_cli.specs.Due.{IsDue, SearchesNothing};
ghost use Rattle.currency_cli.specs.Words.{command_for};
ghost use Rattle.program_words.specs.Words.{CommandSaid};

use command_stages::one_read;
use forced_command::one_listing;
use session_command::one_session;
use verify_command::one_verdict;

/// A law: what is due for words and told documents is determined, but for which report answers a question.
pub fn one_due()
    ensures { (told : List (List ℕ × List ℕ)) (count : ℕ) (words : List (List ℕ)) (a b : Result Done Trouble)
        → IsDue told count words a → IsDue told count words b → AreAlike a b }
{
    one_read();
    one_verdict();
    one_session();
}

/// A law: of words that say `verify` or `forced` it is determined, the text too.
pub fn one_text()
    ensures { (told : List (List ℕ × List ℕ)) (count : ℕ) (words : List (List ℕ)) (command : CommandSaid)
        → command_for count words ≡ Some command → SearchesNothing command → (a b : Result Done Trouble)
        → IsDue told count words a → IsDue told count words b → a ≡ b }
{
    one_verdict();
    one_listing();
}
