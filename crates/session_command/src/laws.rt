ghost use Rattle.std.specs.Prelude.{◌≡◌, ℕ, List, Result};
ghost use Rattle.command_stages.specs.Alike.{AreAlike};
ghost use Rattle.command_stages.specs.declared.done.Done.{Done};
ghost use Rattle.command_stages.specs.declared.trouble.Trouble.{Trouble};
ghost use Rattle.currency_session.specs.Sessions.{Session};
ghost use Rattle.program_words.specs.Words.{SessionSaid};
ghost use Rattle.script_syntax.specs.declared.trees.Entry.{Entry};
ghost use Rattle.session_entries.specs.Entries.{IsEditTree};
ghost use Rattle.session_command.specs.Sessions.{IsSessionDue};
ghost use Rattle.session_command.specs.Transcripts.{IsEntryDone, Step};

use command_stages::one_read;
use script_syntax::one_script;

/// Laws: whatever was replied before, an entry leaves one specification, and an edit is told in one way; so what is due for a
/// session over told documents is alike, whichever reports answer its questions.
pub fn one_session()
    ensures specs { (told : List (List ℕ × List ℕ)) (a : SessionSaid) (s t : Session) (e : Entry) (x y : Step) → s.spec ≡ t.spec
        → IsEntryDone told a s e x → IsEntryDone told a t e y → x.next.spec ≡ y.next.spec }
    ensures edits { (told : List (List ℕ × List ℕ)) (a : SessionSaid) (s t : Session) (e : Entry) (x y : Step)
        → IsEditTree e.tree → s.spec ≡ t.spec → IsEntryDone told a s e x → IsEntryDone told a t e y → x.text ≡ y.text }
    ensures due { (told : List (List ℕ × List ℕ)) (a : SessionSaid) (x y : Result Done Trouble)
        → IsSessionDue told a x → IsSessionDue told a y → AreAlike x y }
{
    one_read();
    one_script();
}
