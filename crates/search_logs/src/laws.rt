ghost use Rattle.search_logs.specs.Laws.{LogsAreAccepted, LogsAreInPlace, LogsAreWritable, TrimmedAreWritable, TrimmedAreAmong, TrimmedAreNoMore, TrimmedAreReached, TrimmedAreUsed, CompletionsAreWritable, SearchLogsAreRight, TrimmedAreRight};

use axiom_agreement::axioms_agree;
use order_limits::statements_are_few;

/// Laws: the log of a search is accepted; and it can be checked, and trimmed to any steps of it.
pub fn search_logs_are_accepted()
    ensures accepted { LogsAreAccepted }
    ensures in_place { LogsAreInPlace }
{
    axioms_agree();
    statements_are_few();
}

/// A law: the log of a search can be written, and is well formed.
pub fn search_logs_are_writable()
    ensures { LogsAreWritable }
{
    statements_are_few();
}

/// Laws: what the log of a search is trimmed to can be written, and is well formed; its statements are among those
/// that are numbered; each step of it is reached from its goals, each statement and each answer used by such a step; and it
/// has no more counted steps, and no other answers.
pub fn trimmed_logs_are_writable()
    ensures writable { TrimmedAreWritable }
    ensures among { TrimmedAreAmong }
    ensures reached { TrimmedAreReached }
    ensures used { TrimmedAreUsed }
    ensures no_more { TrimmedAreNoMore }
{
    statements_are_few();
}

/// Laws: of the steps of the log of a search those alone are not counted that may be so, and no hint is idle; and so it is with
/// what the log is trimmed to.
pub fn search_logs_are_right()
    ensures right { SearchLogsAreRight }
    ensures trimmed { TrimmedAreRight }
{}

/// A law: a completion of a specification within its limits can be written.
pub fn completions_are_writable()
    ensures { CompletionsAreWritable }
{}
