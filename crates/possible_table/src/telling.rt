//! What is told of what is found.

ghost use Rattle.std.specs.Prelude.{◌≡◌, ◌≢◌, IfErr, IfOk, true};
ghost use Rattle.bound_spec.specs.Growth.{IsWithinLimits};
ghost use Rattle.command_stages.specs.Named.{IsDetermined, IsReadFault};
ghost use Rattle.possible_table.specs.Table.{IsPossibleTableOf};
ghost use Rattle.possible_table.specs.Text.{possible_text, undecided_text};
ghost use Rattle.possible_values.specs.Possible.{AreFindings, IsPosed, IsPossible};
ghost use Rattle.query_model.specs.Answers.{AreAscending};
ghost use Rattle.report_write.specs.Writable.{IsWritableReport};
ghost use Rattle.question_bind.specs.Bound.{AsksQuery};
ghost use Rattle.spec_model.specs.Questions.{IsQuestionOn};
ghost use Rattle.answer_texts.specs.Answers.{IsAnswer, answer_text};

use crate::table::possible_text;
use answer_tables::AskedQuery;
use answer_texts::{printed_report, report_on};
use bound_spec::is_specification;
use command_stages::{Done, Ending, Trouble};
use currency_base::{ByteList, NoMemory, TupleList};
use fact_write::open_text;
use possible_answers::possible_answers;
use possible_values::{Found, Posed, Possible};
use report_model::{Report, Verdict};
use solver_guides::Guides;
use spec_model::{Question, Specification};
use std::alloc::Global;

/// What is told of what is found of the matches of the query.
pub(crate) fn printed_possible(
    alloc: Global,
    read: &AskedQuery,
    found: &Possible,
    budget: u64,
    guides: &mut Guides,
) -> Result<Done, Trouble>
    requires within { IsWithinLimits read.now.spec }
    requires question { IsQuestionOn read.now.spec.relations read.now.question }
    requires asks { AsksQuery read.now.question }
    requires found { IsPossible read.now.spec read.now.question budget found.now }
    ensures job { IsDetermined result → IsPossibleTableOf budget read.now.spec read.now.question read.now.query result }
    ensures inside { IsReadFault result → ⊥ }
    ensures not_words { IfErr result (λ e. e ≢ Trouble.Words) }
{
    match found {
        Possible::Inconsistent(report) => {
            printed_brief(alloc, &read.spec, report, Ending::Inconsistent)
        }
        Possible::Found(found) => printed_found(alloc, read, found, budget, guides),
        Possible::Undecided { posed, report } => printed_open(alloc, &read.spec, posed, report),
        Possible::TooMany => Err(Trouble::Limit(13)),
    }
}

/// The same, where each match is found to be possible or impossible: it is asked which answers are certain.
fn printed_found(
    alloc: Global,
    read: &AskedQuery,
    found: &Found,
    budget: u64,
    guides: &mut Guides,
) -> Result<Done, Trouble>
    requires within { IsWithinLimits read.now.spec }
    requires question { IsQuestionOn read.now.spec.relations read.now.question }
    requires asks { AsksQuery read.now.question }
    requires found { AreFindings read.now.spec read.now.question found.now }
    ensures job { IsDetermined result → IsPossibleTableOf budget read.now.spec read.now.question read.now.query result }
    ensures inside { IsReadFault result → ⊥ }
    ensures not_words { IfErr result (λ e. e ≢ Trouble.Words) }
{
    match report_on(alloc, &read.spec, &read.question, budget, guides) {
        Ok(report) => printed_certain(alloc, read, found, budget, &report),
        Err(trouble) => Err(trouble),
    }
}

/// The same, where a report on the certain answers is there.
fn printed_certain(
    alloc: Global,
    read: &AskedQuery,
    found: &Found,
    budget: u64,
    report: &Report,
) -> Result<Done, Trouble>
    requires within { IsWithinLimits read.now.spec }
    requires question { IsQuestionOn read.now.spec.relations read.now.question }
    requires asks { AsksQuery read.now.question }
    requires found { AreFindings read.now.spec read.now.question found.now }
    requires answer { IsAnswer read.now.spec read.now.question budget report.now }
    requires writable { IsWritableReport read.now.spec.relations report.now }
    ensures job { IsDetermined result → IsPossibleTableOf budget read.now.spec read.now.question read.now.query result }
    ensures memory { IfErr result (λ e. e ≡ Trouble.NoMemory) }
{
    is_specification(&read.spec);
    match (&read.question, &report.verdict) {
        (Question::Answers(query), Verdict::Answers(certain)) => {
            let Ok(tuples) = possible_answers(alloc, &read.spec, query, found) else {
                return Err(Trouble::NoMemory);
            };
            let text = possible_text(alloc, &read.query, certain, &tuples);
            done(text, Ending::Tabled)
        }
        _ => printed_brief(alloc, &read.spec, report, Ending::Open),
    }
}

/// That there is no consistent completion, or that the budget is spent on which answers are certain.
fn printed_brief(
    alloc: Global,
    spec: &Specification,
    report: &Report,
    ending: Ending,
) -> Result<Done, Trouble>
    requires { IsWritableReport spec.now.relations report.now }
    ensures printed { IfOk result
        (λ done. done ≡ record { text = answer_text spec.now.relations true report.now; ending = ending }) }
    ensures memory { IfErr result (λ e. e ≡ Trouble.NoMemory) }
{
    let Done { text, .. } = printed_report(alloc, spec, true, report)?;
    Ok(Done { text, ending })
}

/// That the budget is spent on a question.
fn printed_open(
    alloc: Global,
    spec: &Specification,
    posed: &Posed,
    report: &Report,
) -> Result<Done, Trouble>
    requires posed { IsPosed spec.now posed.now }
    requires report { IsWritableReport spec.now.relations report.now }
    ensures printed { IfOk result (λ done. done
        ≡ record { text = undecided_text spec.now posed.now report.now; ending = Ending.Open }) }
    ensures memory { IfErr result (λ e. e ≡ Trouble.NoMemory) }
{
    let text = match posed {
        Posed::Consistent => open_text(alloc, spec, None, report),
        Posed::Fact(fact) => open_text(alloc, spec, Some(fact), report),
    };
    done(text, Ending::Open)
}

/// What a command comes to with this text and this ending, unless there was no memory for the text.
fn done(text: Result<ByteList, NoMemory>, ending: Ending) -> Result<Done, Trouble>
    ensures printed { IfOk result (λ done. text ≡ Ok done.text × (done.ending ≡ ending)) }
    ensures memory { IfErr result (λ e. e ≡ Trouble.NoMemory) }
{
    match text {
        Ok(text) => Ok(Done { text, ending }),
        Err(_) => Err(Trouble::NoMemory),
    }
}
