ghost use Rattle.axiom_models.specs.Matches.{AnswersAreSaid, AnswersHaveMatches, AxiomsMakeAnswers, CertainAnswersAreSaid, MatchesHaveAxioms, OthersAreDenied, SaidAnswersAreCertain};
ghost use Rattle.axiom_models.specs.Models.{AssignmentsAreCompletions, AssignmentsRank, CompletionsHaveAssignments, ListsAreOrdered};

use answer_laws::{answers_in_are_decided, instances_exist};
use currency_base::laws_of_tuple_order;
use rule_laws::satisfied_by_instances;

/// Laws: an assignment that makes the axioms on three rows of a list true puts its rows in an order; one that makes
/// those of every list true puts the rows in the order of a completion; and one that makes all axioms true is the
/// truth in exactly one consistent completion.
pub fn assignments_are_completions()
    ensures lists { ListsAreOrdered }
    ensures ranked { AssignmentsRank }
    ensures completions { AssignmentsAreCompletions }
{
    satisfied_by_instances();
}

/// A law, the other way: each consistent completion has an assignment that makes all axioms true, those on three rows
/// of each list too, and is the truth in it alone.
pub fn completions_have_assignments()
    ensures { CompletionsHaveAssignments }
{
    satisfied_by_instances();
}

/// Laws: over the current instance of a completion a tuple is an answer exactly where a match has an axiom of which one
/// literal says so and all others are false, and each match by which it is one has such an axiom.
pub fn answers_are_matches()
    ensures matches { MatchesHaveAxioms }
    ensures answers { AnswersHaveMatches }
    ensures axioms { AxiomsMakeAnswers }
{
    laws_of_tuple_order();
}

/// Laws: where the axioms of matches are true too, each answer over the completion of an assignment is said to be one;
/// and each tuple that is none over a consistent completion is denied by an assignment that makes all axioms true.
pub fn answers_are_said()
    ensures said { AnswersAreSaid }
    ensures denied { OthersAreDenied }
{
    satisfied_by_instances();
    laws_of_tuple_order();
}

/// Laws: a tuple is an answer over every consistent completion exactly where every assignment that makes all axioms
/// true, those of matches too, says that it is one.
pub fn certain_answers_are_said()
    ensures certain { CertainAnswersAreSaid }
    ensures said { SaidAnswersAreCertain }
{
    satisfied_by_instances();
    laws_of_tuple_order();
    instances_exist();
    answers_in_are_decided();
}
