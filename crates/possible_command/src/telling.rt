//! What is told of what is found.

ghost use Rattle.std.specs.Prelude.{◌≡◌, ◌≢◌, ◌++◌, IfErr, IfOk, Ok, OnOk};
ghost use Rattle.bound_spec.specs.Growth.{IsWithinLimits};
ghost use Rattle.command_stages.specs.Named.{IsDetermined, IsReadFault};
ghost use Rattle.possible_values.specs.Possible.{IsPosed};
ghost use Rattle.report_write.specs.Writable.{IsWritableReport};
ghost use Rattle.possible_command.specs.Possible.{ArePrinted, ComesOf};
ghost use Rattle.possible_command.specs.Text.{brief_findings, brief_text, decided, inconsistent_text, undecided, undecided_text};
ghost use Rattle.possible_command.specs.Findings.{IsWritableFound, IsWritablePossible};

use crate::whole::printed_whole;
use crate::writing::{add_line, append, brief_front};
use command_stages::{Done, Ending, Trouble};
use currency_base::{ByteList, NoMemory};
use fact_write::open_text;
use possible_values::{Found, Posed, Possible};
use report_model::Report;
use report_write::{write_brief, write_report};
use solver_guides::Guides;
use spec_model::Specification;
use std::alloc::Global;

/// What is told of what is found of the candidates of a question.
pub(crate) fn printed_possible(
    alloc: Global,
    spec: &Specification,
    asked: program_words::Possible<'_>,
    found: &Possible,
    guides: &mut Guides,
) -> Result<Done, Trouble>
    requires within { IsWithinLimits spec.now }
    requires found { IsWritablePossible spec.now found.now }
    ensures printed { IsDetermined result → ComesOf spec.now asked.entry.brief asked.entry.budget found.now result }
    ensures inside { IsReadFault result → ⊥ }
    ensures not_words { IfErr result (λ e. e ≢ Trouble.Words) }
{
    match found {
        Possible::Inconsistent(report) => printed_inconsistent(alloc, spec, asked.brief, report),
        Possible::Found(found) => printed_found(
            alloc,
            spec,
            asked.brief,
            asked.budget,
            found,
            guides,
        ),
        Possible::Undecided { posed, report } => printed_undecided(alloc, spec, posed, report),
        Possible::TooMany => Err(Trouble::Limit(13)),
    }
}

/// What is found: the findings alone, or with what shows what is impossible.
fn printed_found(
    alloc: Global,
    spec: &Specification,
    brief: bool,
    budget: u64,
    found: &Found,
    guides: &mut Guides,
) -> Result<Done, Trouble>
    requires within { IsWithinLimits spec.now }
    requires found { IsWritableFound spec.now.relations found.now }
    ensures printed { IfOk result (λ done. ArePrinted spec.now brief budget found.now (Ok done)) }
    ensures memory { IfErr result (λ e. e ≡ Trouble.NoMemory) }
{
    if brief {
        printed_brief(alloc, spec, found)
    } else {
        printed_whole(alloc, spec, found, budget, guides)
    }
}

/// That there is no consistent completion.
fn printed_inconsistent(
    alloc: Global,
    spec: &Specification,
    brief: bool,
    report: &Report,
) -> Result<Done, Trouble>
    requires { IsWritableReport spec.now.relations report.now }
    ensures printed { IfOk result (λ done. done ≡ decided (inconsistent_text spec.now brief report.now)) }
    ensures memory { IfErr result (λ e. e ≡ Trouble.NoMemory) }
{
    if brief {
        done(write_brief(alloc, spec, report), Ending::Decided)
    } else {
        done(write_report(alloc, spec, report), Ending::Decided)
    }
}

/// That the budget is spent on a question.
fn printed_undecided(
    alloc: Global,
    spec: &Specification,
    posed: &Posed,
    report: &Report,
) -> Result<Done, Trouble>
    requires posed { IsPosed spec.now posed.now }
    requires report { IsWritableReport spec.now.relations report.now }
    ensures printed { IfOk result (λ done. done ≡ undecided (undecided_text spec.now posed.now report.now)) }
    ensures memory { IfErr result (λ e. e ≡ Trouble.NoMemory) }
{
    let text = match posed {
        Posed::Consistent => open_text(alloc, spec, None, report),
        Posed::Fact(fact) => open_text(alloc, spec, Some(fact), report),
    };
    done(text, Ending::Undecided)
}

/// The findings alone.
fn printed_brief(alloc: Global, spec: &Specification, found: &Found) -> Result<Done, Trouble>
    requires { IsWritableFound spec.now.relations found.now }
    ensures printed { IfOk result (λ done. done ≡ decided (brief_text spec.now found.now)) }
    ensures memory { IfErr result (λ e. e ≡ Trouble.NoMemory) }
{
    done(brief_text(alloc, spec, found), Ending::Decided)
}

/// The text of the findings alone.
fn brief_text(alloc: Global, spec: &Specification, found: &Found) -> Result<ByteList, NoMemory>
    requires { IsWritableFound spec.now.relations found.now }
    ensures { IfOk result (λ text. text ≡ brief_text spec.now found.now) }
{
    let mut text = brief_front(alloc, spec, found.completions.as_slice())?;
    add_lines(alloc, spec, found, &mut text)?;
    append(&mut text, "end;\n".as_bytes())?;
    Ok(text)
}

/// Appends the lines of all findings.
fn add_lines(
    alloc: Global,
    spec: &Specification,
    found: &Found,
    into: &mut ByteList,
) -> Result<(), NoMemory>
    requires { IsWritableFound spec.now.relations found.now }
    ensures { OnOk result (into.new
        ≡ into.old ++ brief_findings spec.now.relations found.now.candidates found.now.shown) }
{
    for place in 0..found.candidates.len() {
        let one = found.candidates.get(place);
        add_line(alloc, spec, one, *found.shown.get(place), into)?;
    }
    Ok(())
}

/// What a command comes to with this text and this ending, unless there was no memory for the text.
fn done(text: Result<ByteList, NoMemory>, ending: Ending) -> Result<Done, Trouble>
    ensures printed { IfOk result (λ done. text ≡ Ok done.text × (done.ending ≡ ending)) }
    ensures memory { IfErr result (λ e. e ≡ Trouble.NoMemory) }
{
    match text {
        Ok(text) => Ok(Done { text, ending }),
        Err(_) => Err(Trouble::NoMemory),
    }
}
