//! The whole text of what may hold, with a report for each candidate that is impossible.

ghost use Rattle.std.specs.Prelude.{◌≡◌, ◌<◌, ◌++◌, false, IfErr, IfNone, IfOk, IfSome, Ok, OnOk, length};
ghost use Rattle.bound_spec.specs.Growth.{IsWithinLimits};
ghost use Rattle.decided_facts.specs.Decided.{IsSpent};
ghost use Rattle.posed_facts.specs.Facts.{IsPosable};
ghost use Rattle.posed_facts.specs.Questions.{fact_question};
ghost use Rattle.report_write.specs.Writable.{IsWritableReport};
ghost use Rattle.possible_command.specs.Possible.{ArePrinted};
ghost use Rattle.possible_values.specs.declared.found.Posed.TheVariants as posed;
ghost use Rattle.possible_command.specs.Text.{counter_text, undecided, undecided_text};
ghost use Rattle.possible_command.specs.Findings.{AreAdded, IsAddedAt, IsCountered, IsLeftAt, IsNamed, IsWritableFound};

use crate::counter::report_for;
use crate::writing::{add_line, add_question, append, whole_front};
use command_stages::{Done, Ending, Trouble};
use currency_base::{ByteList, NoMemory};
use decided_facts::Shown;
use fact_write::open_text;
use posed_facts::Fact;
use possible_values::{Candidate, Found};
use report_model::Report;
use report_write::write_report;
use solver_guides::Guides;
use spec_model::Specification;
use std::alloc::Global;

/// The fact of a place, on whose question the budget is spent, and the report that says so.
#[derive(Drop)]
struct Left {
    place: usize,
    report: Report,
}

/// What is told of all that is found, with the reports for what is impossible; or, if the budget is spent on one of these, that.
pub(crate) fn printed_whole(
    alloc: Global,
    spec: &Specification,
    found: &Found,
    budget: u64,
    guides: &mut Guides,
) -> Result<Done, Trouble>
    requires within { IsWithinLimits spec.now }
    requires found { IsWritableFound spec.now.relations found.now }
    ensures printed { IfOk result (λ done. ArePrinted spec.now false budget found.now (Ok done)) }
    ensures memory { IfErr result (λ e. e ≡ Trouble.NoMemory) }
{
    match whole_done(alloc, spec, found, budget, guides) {
        Ok(done) => Ok(done),
        Err(NoMemory) => Err(Trouble::NoMemory),
    }
}

/// The same, refused for want of memory alone.
fn whole_done(
    alloc: Global,
    spec: &Specification,
    found: &Found,
    budget: u64,
    guides: &mut Guides,
) -> Result<Done, NoMemory>
    requires within { IsWithinLimits spec.now }
    requires found { IsWritableFound spec.now.relations found.now }
    ensures { IfOk result (λ done. ArePrinted spec.now false budget found.now (Ok done)) }
{
    let mut text = whole_front(alloc, spec, found.completions.as_slice())?;
    match add_findings(alloc, spec, found, budget, guides, &mut text)? {
        None => {
            append(&mut text, "end;\n".as_bytes())?;
            Ok(Done {
                text,
                ending: Ending::Decided,
            })
        }
        Some(left) => left_done(alloc, spec, found.facts.get(left.place), &left.report),
    }
}

/// What is told where the budget is spent on the question for a fact.
fn left_done(
    alloc: Global,
    spec: &Specification,
    fact: &Fact,
    report: &Report,
) -> Result<Done, NoMemory>
    requires fact { IsPosable spec.now.relations fact.now }
    requires report { IsWritableReport spec.now.relations report.now }
    ensures { IfOk result (λ done. done ≡ undecided (undecided_text spec.now (posed.Fact fact.now) report.now)) }
{
    Ok(Done {
        text: open_text(alloc, spec, Some(fact), report)?,
        ending: Ending::Undecided,
    })
}

/// Appends the findings of all candidates, unless the budget is spent on one of them.
fn add_findings(
    alloc: Global,
    spec: &Specification,
    found: &Found,
    budget: u64,
    guides: &mut Guides,
    into: &mut ByteList,
) -> Result<Option<Left>, NoMemory>
    requires within { IsWithinLimits spec.now }
    requires found { IsWritableFound spec.now.relations found.now }
    ensures added { IfOk result (λ left. IfNone left (AreAdded spec.now budget found.now into.old into.new)) }
    ensures left { IfOk result (λ left. IfSome left (λ l. IsLeftAt spec.now budget found.now l.place l.report)) }
{
    for place in 0..found.candidates.len() {
        if let Some(report) = add_finding(alloc, spec, found, place, budget, guides, into)? {
            return Ok(Some(Left { place, report }));
        }
    }
    Ok(None)
}

/// Appends the finding of the candidate of a place. Where the budget is spent on its question, the report says so.
fn add_finding(
    alloc: Global,
    spec: &Specification,
    found: &Found,
    place: usize,
    budget: u64,
    guides: &mut Guides,
    into: &mut ByteList,
) -> Result<Option<Report>, NoMemory>
    requires within { IsWithinLimits spec.now }
    requires found { IsWritableFound spec.now.relations found.now }
    requires place { place < length found.now.candidates }
    ensures added { IfOk result (λ left. IfNone left (IsAddedAt spec.now budget found.now place into.old into.new)) }
    ensures left { IfOk result (λ left. IfSome left (IsLeftAt spec.now budget found.now place)) }
{
    let one = found.candidates.get(place);
    let fact = found.facts.get(place);
    match found.shown.get(place) {
        Shown::FailsIn(at) => {
            add_line(alloc, spec, one, Shown::FailsIn(*at), into)?;
            Ok(None)
        }
        Shown::Holds => add_countered(alloc, spec, one, fact, budget, guides, into),
    }
}

/// Appends that a candidate is impossible, with a report that shows that its fact holds. Where the budget is spent on the
/// question for it, the report says so.
fn add_countered(
    alloc: Global,
    spec: &Specification,
    one: &Candidate,
    fact: &Fact,
    budget: u64,
    guides: &mut Guides,
    into: &mut ByteList,
) -> Result<Option<Report>, NoMemory>
    requires within { IsWithinLimits spec.now }
    requires one { IsNamed spec.now.relations one.now }
    requires fact { IsPosable spec.now.relations fact.now }
    ensures added { IfOk result (λ left. IfNone left (IsCountered spec.now budget one.now fact.now into.old into.new)) }
    ensures left { IfOk result (λ left. IfSome left (IsSpent spec.now (fact_question spec.now.relations fact.now) budget)) }
{
    let report = report_for(alloc, spec, fact, budget, guides)?;
    if !report.verdict.kind().is_decided() {
        return Ok(Some(report));
    }
    add_line(alloc, spec, one, Shown::Holds, into)?;
    add_counter(alloc, spec, fact, &report, into)?;
    Ok(None)
}

/// Appends the question for a fact, and the report that answers it.
fn add_counter(
    alloc: Global,
    spec: &Specification,
    fact: &Fact,
    report: &Report,
    into: &mut ByteList,
) -> Result<(), NoMemory>
    requires fact { IsPosable spec.now.relations fact.now }
    requires report { IsWritableReport spec.now.relations report.now }
    ensures { OnOk result (into.new ≡ into.old ++ counter_text spec.now.relations fact.now report.now) }
{
    add_question(alloc, spec, fact, into)?;
    append(into, write_report(alloc, spec, report)?.as_slice())
}
