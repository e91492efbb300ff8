ghost use Rattle.std.specs.Prelude.{ℕ, List, Result};
ghost use Rattle.certain_table.specs.Table.{IsCertainTableDue};
ghost use Rattle.command_stages.specs.Alike.{AreAlike};
ghost use Rattle.command_stages.specs.declared.done.Done.{Done};
ghost use Rattle.command_stages.specs.declared.trouble.Trouble.{Trouble};
ghost use Rattle.program_words.specs.Words.{TableSaid};

use command_stages::one_read;

/// A law: what is due for the documents of `ask --csv` is alike.
pub fn one_certain_table()
    ensures { (told : List (List ℕ × List ℕ)) (a : TableSaid) (x y : Result Done Trouble)
        → IsCertainTableDue told a x → IsCertainTableDue told a y → AreAlike x y }
{
    one_read();
}
