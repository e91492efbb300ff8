ghost use Rattle.std.specs.Prelude.{◌≡◌, ℕ, List, Result};
ghost use Rattle.command_stages.specs.declared.done.Done.{Done};
ghost use Rattle.command_stages.specs.declared.trouble.Trouble.{Trouble};
ghost use Rattle.program_words.specs.Words.{VerifySaid};
ghost use Rattle.verify_command.specs.Judged.{IsVerifyDue};

use command_stages::one_read;
use report_stages::one_judgement;

/// A law: what is due for three documents is determined.
pub fn one_verdict()
    ensures { (told : List (List ℕ × List ℕ)) (v : VerifySaid) (a b : Result Done Trouble)
        → IsVerifyDue told v a → IsVerifyDue told v b → a ≡ b }
{
    one_read();
    one_judgement();
}
