ghost use Rattle.std.specs.Prelude.{◌≡◌, ◌≢◌, ◌≤◌, ◌++◌, ◌∷◌, [], All, IfErr, IfOk, OnOk, string_bytes};
ghost use Rattle.bound_spec.specs.Growth.{IsWithinLimits};
ghost use Rattle.spec_model.specs.Questions.{IsQuestionOn};
ghost use Rattle.command_stages.specs.Named.{IsDetermined, IsReadFault};
ghost use Rattle.trial_command.specs.Trial.{AreQuestionsRead, AreTried, IsTrialDue, IsTrialDueOver, head_text, number_line, report_line, verdict_line};
ghost use Rattle.report_model.specs.Verdicts.{kind_text};

use answer_texts::{printed_report, report_on};
use command_stages::{Done, Ending, Trouble, bytes_of, read_specification, read_the_question};
use currency_base::{ItemList, NoMemory};
use currency_edge::SteadyShelf;
use report_model::{Report, Verdict, VerdictKind};
use solver_guides::Guides;
use spec_model::{Question, Specification};
use std::alloc::{AllocError, Global};
use trial_documents::{rows_of, trial_documents};

// How many clauses may be learned for each question.
const BUDGET: u64 = 10_000_000;

// A line of a text and a number.
fn number_line(alloc: Global, said: &str, number: u64) -> Result<String, AllocError>
    ensures { IfOk result (λ text. string_bytes text ≡ number_line said.now number) }
{
    let end = format!(in alloc; "{number}\n")?;
    let mut text = String::from_str(alloc, said)?;
    text.push_str(end.as_str())?;
    Ok(text)
}

// The lines of the summary before those of the questions.
fn head(alloc: Global, size: u32) -> Result<String, AllocError>
    requires some { 1 ≤ size }
    requires limit { size ≤ 1000 }
    ensures { IfOk result (λ text. string_bytes text ≡ head_text size) }
{
    let rows = number_line(alloc, "rows ", rows_of(size) as u64)?;
    let mut text = number_line(alloc, "trial ", size as u64)?;
    text.push_str(rows.as_str())?;
    Ok(text)
}

// The line of a verdict of which nothing is counted.
fn kind_line(alloc: Global, kind: VerdictKind) -> Result<String, AllocError>
    ensures { IfOk result (λ text. string_bytes text ≡ kind_text kind ++ 10 ∷ []) }
{
    let kind = kind.text();
    format!(in alloc; "{kind}\n")
}

// The line of a verdict: its kind, and how many answers it has, where it is one of answers.
fn verdict_line(alloc: Global, verdict: &Verdict) -> Result<String, AllocError>
    ensures { IfOk result (λ text. string_bytes text ≡ verdict_line verdict.now) }
{
    match verdict {
        Verdict::Inconsistent => kind_line(alloc, VerdictKind::Inconsistent),
        Verdict::Consistent => kind_line(alloc, VerdictKind::Consistent),
        Verdict::Certain => kind_line(alloc, VerdictKind::Certain),
        Verdict::NotCertain(_) => kind_line(alloc, VerdictKind::NotCertain),
        Verdict::Same(_) => kind_line(alloc, VerdictKind::Same),
        Verdict::NotSame { .. } => kind_line(alloc, VerdictKind::NotSame),
        Verdict::Answers(tuples) => number_line(alloc, "answers ", tuples.len() as u64),
        Verdict::Undecided(_) => kind_line(alloc, VerdictKind::Undecided),
    }
}

// Appends the line of a report.
fn note(alloc: Global, summary: &mut String, report: &Report) -> Result<(), AllocError>
    ensures { OnOk result (string_bytes summary.new ≡ string_bytes summary.old ++ report_line report.now) }
{
    let line = verdict_line(alloc, &report.verdict)?;
    summary.push_str(line.as_str())
}

// The questions are answered in turn, until the budget is spent on one.
fn tried(
    alloc: Global,
    size: u32,
    spec: &Specification,
    questions: &[Question],
    guides: &mut Guides,
) -> Result<Done, Trouble>
    requires some { 1 ≤ size }
    requires limit { size ≤ 1000 }
    requires within { IsWithinLimits spec.now }
    requires questions { All (IsQuestionOn spec.now.relations) questions.now }
    ensures job { IsDetermined result → AreTried size spec.now questions.now result }
    ensures inside { IsReadFault result → ⊥ }
    ensures not_words { IfErr result (λ e. e ≢ Trouble.Words) }
{
    let Ok(mut summary) = head(alloc, size) else {
        return Err(Trouble::NoMemory);
    };
    for place in 0..questions.len() {
        let report = match report_on(alloc, spec, &questions[place], BUDGET, guides) {
            Ok(report) => report,
            Err(trouble) => return Err(trouble),
        };
        if !report.verdict.kind().is_decided() {
            return printed_report(alloc, spec, false, &report);
        }
        let Ok(()) = note(alloc, &mut summary, &report) else {
            return Err(Trouble::NoMemory);
        };
    }
    Ok(Done {
        text: bytes_of(summary),
        ending: Ending::Decided,
    })
}

// Four questions as a list.
fn four(
    alloc: Global,
    first: Question,
    second: Question,
    third: Question,
    fourth: Question,
) -> Result<ItemList<Question>, NoMemory>
    ensures { IfOk result (λ questions. questions ≡ first ∷ second ∷ third ∷ fourth ∷ []) }
{
    let mut questions = ItemList::new(alloc);
    questions.push(first)?;
    questions.push(second)?;
    questions.push(third)?;
    questions.push(fourth)?;
    Ok(questions)
}

// The four questions, each by the stage that reads one for `ask`.
fn read_questions(
    alloc: Global,
    shelf: &mut SteadyShelf,
    spec: &Specification,
) -> Result<ItemList<Question>, Trouble>
    ensures read { IsDetermined result → AreQuestionsRead shelf.old spec.now.relations result }
    ensures fit { IfOk result (All (IsQuestionOn spec.now.relations)) }
    ensures inside { IsReadFault result → ⊥ }
    ensures not_words { IfErr result (λ e. e ≢ Trouble.Words) }
{
    let first = match read_the_question(alloc, shelf, spec, "q1") {
        Ok(question) => question,
        Err(trouble) => return Err(trouble),
    };
    let second = match read_the_question(alloc, shelf, spec, "q2") {
        Ok(question) => question,
        Err(trouble) => return Err(trouble),
    };
    let third = match read_the_question(alloc, shelf, spec, "q3") {
        Ok(question) => question,
        Err(trouble) => return Err(trouble),
    };
    let fourth = match read_the_question(alloc, shelf, spec, "q4") {
        Ok(question) => question,
        Err(trouble) => return Err(trouble),
    };
    match four(alloc, first, second, third, fourth) {
        Ok(questions) => Ok(questions),
        Err(_) => Err(Trouble::NoMemory),
    }
}

// All stages over the documents of a shelf.
fn tried_over(
    alloc: Global,
    size: u32,
    shelf: &mut SteadyShelf,
    guides: &mut Guides,
) -> Result<Done, Trouble>
    requires some { 1 ≤ size }
    requires limit { size ≤ 1000 }
    ensures due { IsDetermined result → IsTrialDueOver shelf.old size result }
    ensures inside { IsReadFault result → ⊥ }
    ensures not_words { IfErr result (λ e. e ≢ Trouble.Words) }
{
    let spec = match read_specification(alloc, shelf, "spec") {
        Ok(spec) => spec,
        Err(trouble) => return Err(trouble),
    };
    let questions = match read_questions(alloc, shelf, &spec) {
        Ok(questions) => questions,
        Err(trouble) => return Err(trouble),
    };
    tried(alloc, size, &spec, questions.as_slice(), guides)
}

/// All stages of `trial`, over the documents of a generated specification of so many entities.
pub fn try_generated(alloc: Global, size: u64, guides: &mut Guides) -> Result<Done, Trouble>
    requires some { 1 ≤ size }
    requires limit { size ≤ 1000 }
    ensures due { IsDetermined result → IsTrialDue size result }
    ensures inside { IsReadFault result → ⊥ }
    ensures not_words { IfErr result (λ e. e ≢ Trouble.Words) }
{
    let size = size as u32;
    match trial_documents(alloc, size) {
        Ok(mut shelf) => tried_over(alloc, size, &mut shelf, guides),
        Err(_) => Err(Trouble::NoMemory),
    }
}
