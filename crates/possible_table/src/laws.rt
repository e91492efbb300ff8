ghost use Rattle.std.specs.Prelude.{ℕ, List, Result};
ghost use Rattle.command_stages.specs.Alike.{AreAlike};
ghost use Rattle.command_stages.specs.declared.done.Done.{Done};
ghost use Rattle.command_stages.specs.declared.trouble.Trouble.{Trouble};
ghost use Rattle.possible_table.specs.Table.{IsPossibleTableDue};
ghost use Rattle.program_words.specs.Words.{TableSaid};

use command_stages::one_read;

/// A law: what is due for the documents of `possible --csv` is alike.
pub fn one_possible_table()
    ensures { (told : List (List ℕ × List ℕ)) (a : TableSaid) (x y : Result Done Trouble)
        → IsPossibleTableDue told a x → IsPossibleTableDue told a y → AreAlike x y }
{
    one_read();
}
