ghost use Rattle.std.specs.Prelude.{◌≡◌, codes, option_and_then, option_map};
ghost use Rattle.program_words.specs.Numbers.{number_if_given, number_or};
ghost use Rattle.clap.specs.Words.{found_of, first_of, rows_of, subcommand_rows_of};
ghost use Rattle.program_words.specs.Said.{said_of};
ghost use Rattle.program_words.specs.Words.{ask_in, command_in, conflicts_in, explain_in, forced_in, form_of, golden_in, has_flag, is_set};
ghost use Rattle.program_words.specs.Words.{possible_in, session_in, tells_two_ways, trial_in, verify_in};

use crate::number::{number_if_given, number_or, number_up_to, unit_in};
use crate::{
    AnswerForm, AnswerTable, Ask, Command, Conflicts, Explain, Golden, Possible, Session, Verify,
};
use clap::ArgMatches;

/// The first text of an argument.
fn text_of<'a>(matches: &ArgMatches<'a>, id: &str) -> Option<&'a str>
    ensures { option_map (λ s. s.now) result ≡ first_of id.now (rows_of (found_of matches.now)) }
{
    matches.get_str(id)
}

fn is_set(text: Option<&str>) -> bool
    ensures { result ≡ is_set (option_map (λ s. s.now) text.entry) }
{
    match text {
        Some(text) => text == "true",
        None => false,
    }
}

/// How many clauses may be learned. `None` where that is given and wrong.
fn budget_in(given: &ArgMatches<'_>) -> Option<u64>
    ensures { result ≡ number_or 100000 10000000 (first_of (codes "budget") (rows_of (found_of given.now))) }
{
    number_or(100_000, 10_000_000, text_of(given, "budget"))
}

/// The one guide that is kept, where one is. `None` where it is given and wrong.
fn guide_in(given: &ArgMatches<'_>) -> Option<Option<u64>>
    ensures { result ≡ number_if_given 4 (first_of (codes "guide") (rows_of (found_of given.now))) }
{
    number_if_given(4, text_of(given, "guide"))
}

/// Is the flag of this name given?
fn has_flag(given: &ArgMatches<'_>, name: &str) -> bool
    ensures { result ≡ has_flag name.now (rows_of (found_of given.now)) }
{
    is_set(text_of(given, name))
}

/// Is more than one of a brief text, the verdict alone and a table asked for, or a table whose status tells an answer of no?
fn tells_two_ways(given: &ArgMatches<'_>) -> bool
    ensures { result ≡ tells_two_ways (rows_of (found_of given.now)) }
{
    let brief = has_flag(given, "brief");
    let verdict = has_flag(given, "verdict");
    (brief && verdict)
        || (has_flag(given, "csv") && (brief || (verdict || has_flag(given, "exit"))))
}

/// How much is told of an answer.
fn form_in(given: &ArgMatches<'_>) -> AnswerForm
    ensures { result ≡ form_of (has_flag (codes "brief") (rows_of (found_of given.now)))
        (has_flag (codes "verdict") (rows_of (found_of given.now))) }
{
    if has_flag(given, "brief") {
        AnswerForm::Brief
    } else if has_flag(given, "verdict") {
        AnswerForm::Verdict
    } else {
        AnswerForm::Whole
    }
}

fn ask_in<'a>(given: &ArgMatches<'a>) -> Option<Command<'a>>
    ensures { option_map said_of result ≡ ask_in (rows_of (found_of given.now)) }
{
    if tells_two_ways(given) {
        return None;
    }
    let spec = text_of(given, "SPEC")?;
    let question = text_of(given, "QUESTION")?;
    let budget = budget_in(given)?;
    let guide = guide_in(given)?;
    if has_flag(given, "csv") {
        return Some(Command::CertainTable(AnswerTable {
            spec,
            question,
            budget,
            guide,
        }));
    }
    Some(Command::Ask(Ask {
        spec,
        question,
        budget,
        form: form_in(given),
        exit: has_flag(given, "exit"),
        guide,
    }))
}

fn verify_in<'a>(given: &ArgMatches<'a>) -> Option<Command<'a>>
    ensures { option_map said_of result ≡ verify_in (rows_of (found_of given.now)) }
{
    let spec = text_of(given, "SPEC")?;
    let question = text_of(given, "QUESTION")?;
    let report = text_of(given, "REPORT")?;
    Some(Command::Verify(Verify {
        spec,
        question,
        report,
    }))
}

fn forced_in<'a>(given: &ArgMatches<'a>) -> Option<Command<'a>>
    ensures { option_map said_of result ≡ forced_in (rows_of (found_of given.now)) }
{
    let spec = text_of(given, "SPEC")?;
    Some(Command::Forced(spec))
}

fn trial_in<'a>(given: &ArgMatches<'a>) -> Option<Command<'a>>
    ensures { option_map said_of result ≡ trial_in (rows_of (found_of given.now)) }
{
    let size = number_up_to(text_of(given, "N")?, 1000)?;
    Some(Command::Trial(size))
}

fn explain_in<'a>(given: &ArgMatches<'a>) -> Option<Command<'a>>
    ensures { option_map said_of result ≡ explain_in (rows_of (found_of given.now)) }
{
    let spec = text_of(given, "SPEC")?;
    let question = text_of(given, "QUESTION")?;
    let unit = unit_in(text_of(given, "N"))?;
    let budget = budget_in(given)?;
    let guide = guide_in(given)?;
    Some(Command::Explain(Explain {
        spec,
        question,
        unit,
        budget,
        guide,
    }))
}

fn conflicts_in<'a>(given: &ArgMatches<'a>) -> Option<Command<'a>>
    ensures { option_map said_of result ≡ conflicts_in (rows_of (found_of given.now)) }
{
    let spec = text_of(given, "SPEC")?;
    let budget = budget_in(given)?;
    let guide = guide_in(given)?;
    Some(Command::Conflicts(Conflicts {
        spec,
        budget,
        guide,
    }))
}

fn golden_in<'a>(given: &ArgMatches<'a>) -> Option<Command<'a>>
    ensures { option_map said_of result ≡ golden_in (rows_of (found_of given.now)) }
{
    let spec = text_of(given, "SPEC")?;
    let relation = text_of(given, "RELATION")?;
    let budget = budget_in(given)?;
    let guide = guide_in(given)?;
    Some(Command::Golden(Golden {
        spec,
        relation,
        budget,
        guide,
    }))
}

fn possible_in<'a>(given: &ArgMatches<'a>) -> Option<Command<'a>>
    ensures { option_map said_of result ≡ possible_in (rows_of (found_of given.now)) }
{
    if tells_two_ways(given) {
        return None;
    }
    let spec = text_of(given, "SPEC")?;
    let question = text_of(given, "QUESTION")?;
    let budget = budget_in(given)?;
    let guide = guide_in(given)?;
    if has_flag(given, "csv") {
        return Some(Command::PossibleTable(AnswerTable {
            spec,
            question,
            budget,
            guide,
        }));
    }
    let brief = has_flag(given, "brief");
    Some(Command::Possible(Possible {
        spec,
        question,
        budget,
        brief,
        guide,
    }))
}

fn session_in<'a>(given: &ArgMatches<'a>) -> Option<Command<'a>>
    ensures { option_map said_of result ≡ session_in (rows_of (found_of given.now)) }
{
    let spec = text_of(given, "SPEC")?;
    let script = text_of(given, "SCRIPT")?;
    let budget = budget_in(given)?;
    let guide = guide_in(given)?;
    let brief = has_flag(given, "brief");
    Some(Command::Session(Session {
        spec,
        script,
        budget,
        brief,
        guide,
    }))
}

/// The command that was found, with what was given to it.
pub(crate) fn command_in<'a>(matches: &ArgMatches<'a>) -> Option<Command<'a>>
    ensures { option_map said_of result ≡ option_and_then command_in (subcommand_rows_of matches.now) }
{
    let (name, given) = matches.subcommand()?;
    match name {
        "ask" => ask_in(given),
        "trial" => trial_in(given),
        "explain" => explain_in(given),
        "conflicts" => conflicts_in(given),
        "golden" => golden_in(given),
        "possible" => possible_in(given),
        "session" => session_in(given),
        "verify" => verify_in(given),
        "forced" => forced_in(given),
        _ => None,
    }
}
