ghost use Rattle.std.specs.Prelude.{◌≡◌, None, Ok, Err, map, string_bytes};
ghost use Rattle.currency_cli.specs.Clauses.{Answered, Blames, Complete, Conducts, Ends, Exact, Explains, Imagines, Listed, PossiblyTables};
ghost use Rattle.currency_cli.specs.Clauses.{Records, Refused, Steady, Tables, Tries, Verified, WordsRefused};
ghost use Rattle.currency_cli.specs.Ends.{EndsWith, IsCutShort, IsDenied, IsDone, IsInconsistent, IsUndecided, NamesUnread};
ghost use Rattle.currency_cli.specs.Words.{command_for};
ghost use Rattle.currency_edge.specs.Fault.{Rose};
ghost use Rattle.solver_guides.specs.Rings.{count_of};

use crate::commands::outcome;
use crate::laws::one_due;
use command_stages::{Done, Trouble, one_read, text_of};
use currency_edge::{Shelf, Sink, SinkFault, put_all};
use report_stages::one_judgement;
use script_syntax::one_script;
use solver_guides::Guides;
use std::alloc::Global;

// Writes the text of what a command came to.
fn hand_out<K: Sink>(alloc: Global, out: &mut K, done: &Done) -> u8
    ensures { EndsWith (K.written out.old) (K.written out.new) (K.faults out.old) (K.faults out.new) (Ok done.now) result }
{
    match put_all(alloc, out, done.text.as_slice()) {
        Ok(()) => done.ending.status(),
        Err(SinkFault::Failed) => 8,
        Err(SinkFault::NoMemory) => 9,
    }
}

// Writes the text of a refusal. Where the sink fails, the status stays that of the refusal.
fn refuse<K: Sink>(alloc: Global, out: &mut K, trouble: &Trouble) -> u8
    ensures { EndsWith (K.written out.old) (K.written out.new) (K.faults out.old) (K.faults out.new) (Err trouble.now) result }
{
    let Ok(text) = text_of(alloc, trouble) else {
        return 9;
    };
    match put_all(alloc, out, text.as_slice()) {
        Ok(()) => trouble.status(),
        Err(SinkFault::Failed) => trouble.status(),
        Err(SinkFault::NoMemory) => 9,
    }
}

/// Runs the program: reads the documents that the words name, and the tables that the specification and the question
/// name, does the job, and writes its text. The whole text is made first. The guides steer the search of `ask`,
/// whatever they pick. The answer is the exit status:
///
/// | status | comes |
/// |---|---|
/// | 0 | the job was done: it is decided, the report shows its verdict, or what was asked for is listed |
/// | 1 | the answer is no, and the words ask for a status that tells it |
/// | 2 | the words are no command, or keep a guide that is not there |
/// | 3 | the budget is spent; the text is the whole report, which says `undecided` |
/// | 4 | the report does not show its verdict |
/// | 5 | a document is refused |
/// | 6 | a limit is exceeded |
/// | 7 | the shelf could not give a document |
/// | 8 | the sink could not take the text of status 0, 1, 3 or 10 |
/// | 9 | want of memory |
/// | 10 | a table was asked for, and there is no consistent completion of which it could tell |
pub fn run<S: Shelf, K: Sink>(
    alloc: Global,
    words: &[String],
    shelf: &mut S,
    out: &mut K,
    guides: &mut Guides,
) -> u8
    // Whatever comes, it is what is due for the words and the told documents, with its text and status.
    ensures ends { Ends (S.texts shelf.old) (count_of guides.old) (map (λ w. string_bytes w) words.now) (S.faults shelf.old)
        (S.faults shelf.new) (K.written out.old) (K.written out.new) (K.faults out.old) (K.faults out.new) result }

    // The other way round: where an outcome is due, the answer is its status, unless the outside fails.
    ensures exact { Exact (S.texts shelf.old) (count_of guides.old) (map (λ w. string_bytes w) words.now) (S.faults shelf.old)
        (S.faults shelf.new) (K.faults out.old) (K.faults out.new) result }
    ensures complete { Steady (S.faults shelf.old) (S.faults shelf.new) (K.faults out.old) (K.faults out.new)
        (Complete (S.texts shelf.old) (count_of guides.old) (map (λ w. string_bytes w) words.now) result) }

    // Where both are read, a question about a specification is answered, whichever of the four it is; unless it is a query that
    // has more than 1,000,000 answers over a consistent completion.
    ensures answered { Steady (S.faults shelf.old) (S.faults shelf.new) (K.faults out.old) (K.faults out.new)
        (Answered (S.texts shelf.old) (count_of guides.old) (map (λ w. string_bytes w) words.now) result) }

    // A report on a specification and a question is judged, where all three are read.
    ensures verified { Steady (S.faults shelf.old) (S.faults shelf.new) (K.faults out.old) (K.faults out.new)
        (Verified (S.texts shelf.old) (count_of guides.old) (map (λ w. string_bytes w) words.now) result) }

    // The forced pairs of a specification are listed, where it is read.
    ensures listed { Steady (S.faults shelf.old) (S.faults shelf.new) (K.faults out.old) (K.faults out.new)
        (Listed (S.texts shelf.old) (count_of guides.old) (map (λ w. string_bytes w) words.now) result) }

    // A unit of the answer is explained, where both are read, unless the query has too many answers.
    ensures explained { Steady (S.faults shelf.old) (S.faults shelf.new) (K.faults out.old) (K.faults out.new)
        (Explains (S.texts shelf.old) (count_of guides.old) (map (λ w. string_bytes w) words.now) result) }

    // The conflicts of a specification are listed, where it is read, unless a budget is spent.
    ensures blamed { Steady (S.faults shelf.old) (S.faults shelf.new) (K.faults out.old) (K.faults out.new)
        (Blames (S.texts shelf.old) (count_of guides.old) (map (λ w. string_bytes w) words.now) result) }

    // The golden records of a relation are told, where the specification is read and has it, unless a budget is spent, or there
    // is no consistent completion.
    ensures recorded { Steady (S.faults shelf.old) (S.faults shelf.new) (K.faults out.old) (K.faults out.new)
        (Records (S.texts shelf.old) (count_of guides.old) (map (λ w. string_bytes w) words.now) result) }

    // What may hold is told, where the specification and the question are read, unless a budget is spent, or the query has more
    // matches than are gone through.
    ensures imagined { Steady (S.faults shelf.old) (S.faults shelf.new) (K.faults out.old) (K.faults out.new)
        (Imagines (S.texts shelf.old) (count_of guides.old) (map (λ w. string_bytes w) words.now) result) }

    // The certain answers of a query are told as a table, where the specification and a question that asks one are read, unless
    // the budget is spent, there are too many over a consistent completion, or there is none.
    ensures tabled { Steady (S.faults shelf.old) (S.faults shelf.new) (K.faults out.old) (K.faults out.new)
        (Tables (S.texts shelf.old) (count_of guides.old) (map (λ w. string_bytes w) words.now) result) }

    // So are the possible answers, unless the query has more matches than are gone through.
    ensures possibly_tabled { Steady (S.faults shelf.old) (S.faults shelf.new) (K.faults out.old) (K.faults out.new)
        (PossiblyTables (S.texts shelf.old) (count_of guides.old) (map (λ w. string_bytes w) words.now) result) }

    // The entries of a session are gone through to the end, where the specification and the script are read.
    ensures conducted { Steady (S.faults shelf.old) (S.faults shelf.new) (K.faults out.old) (K.faults out.new)
        (Conducts (S.texts shelf.old) (count_of guides.old) (map (λ w. string_bytes w) words.now) result) }

    // `trial` reads nothing of the shelf: whatever that tells, what the program comes to is due for the generated documents.
    ensures tried { Tries (count_of guides.old) (map (λ w. string_bytes w) words.now) (K.written out.old) (K.written out.new)
        (K.faults out.old) (K.faults out.new) result }

    // A refusal of the words, a document, a bound or the report is due.
    ensures refused { Refused (S.texts shelf.old) (count_of guides.old) (map (λ w. string_bytes w) words.now) result }

    // The words, and how many guides are handed in, decide whether they are refused.
    ensures words { result ≡ 2 → command_for (count_of guides.old) (map (λ w. string_bytes w) words.now) ≡ None }
    ensures words_refused { WordsRefused (count_of guides.old) (map (λ w. string_bytes w) words.now) result }

    // The job was done. Each decided verdict that is printed is right: the listed completions and the derivation show it, and
    // `verify` accepts the whole report. No report whose decided verdict is wrong is accepted, whoever made it. What explains
    // a unit of a verdict, or that there is no consistent completion, suffices, and of its items each is needed; the parts that
    // are listed as conflicts are exactly the inconsistent ones, each with what explains it; a value stands in a golden record
    // exactly where it is the current one in every consistent completion, and an attribute is named as open exactly where two
    // values are possible; of the candidates of a question exactly those are told as possible that hold in some consistent
    // completion, each with a listed one in which it does; a table of answers has exactly the tuples that are answers over the
    // current instance of every consistent completion, or of some, and then says of each whether it is one over every. Each edit
    // of a session that is said to be accepted was done and each that is refused changed nothing; each decided reply is right for
    // the specification as the edits before it left it, and shows that, and an undecided one is what a search for it then gave.
    ensures done { result ≡ 0
        → IsDone (S.texts shelf.old) (count_of guides.old) (map (λ w. string_bytes w) words.now) (K.written out.old)
        (K.written out.new) }

    // The answer to the question is no, and the words ask for a status that tells it: the text is that of an answer which is
    // right.
    ensures denied { result ≡ 1
        → IsDenied (S.texts shelf.old) (count_of guides.old) (map (λ w. string_bytes w) words.now) (K.written out.old)
        (K.written out.new) }

    // The budget is spent: so many clauses were learned, each new, and unit propagation does not refute them. It is less than
    // three to the number of the question's variables.
    ensures undecided { result ≡ 3
        → IsUndecided (S.texts shelf.old) (count_of guides.old) (map (λ w. string_bytes w) words.now)
        (K.written out.old) (K.written out.new) }

    // A table was asked for, and there is no consistent completion.
    ensures inconsistent { result ≡ 10
        → IsInconsistent (S.texts shelf.old) (count_of guides.old) (map (λ w. string_bytes w) words.now)
        (K.written out.old) (K.written out.new) }

    // Faults of the outside.
    ensures read_fault { result ≡ 7 → Rose (S.faults shelf.old) (S.faults shelf.new) }
    ensures read_fault_text { result ≡ 7
        → NamesUnread (S.texts shelf.old) (count_of guides.old) (map (λ w. string_bytes w) words.now)
        (K.written out.old) (K.written out.new) }
    ensures write_fault { result ≡ 8 → Rose (K.faults out.old) (K.faults out.new) }
    ensures write_fault_text { result ≡ 8
        → IsCutShort (S.texts shelf.old) (count_of guides.old) (map (λ w. string_bytes w) words.now)
        (K.written out.old) (K.written out.new) }
{
    one_due();
    one_read();
    one_judgement();
    one_script();
    match outcome(alloc, words, shelf, guides) {
        Ok(done) => hand_out(alloc, out, &done),
        Err(trouble) => refuse(alloc, out, &trouble),
    }
}
