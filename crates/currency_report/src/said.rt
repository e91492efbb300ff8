ghost use Rattle.std.specs.Prelude.{◌≡◌, All, IfOk};
ghost use Rattle.spec_model.specs.Completion.{HasShape};
ghost use Rattle.spec_names.specs.Names.{all_names_of};
ghost use Rattle.currency_report.specs.Outcomes.{IsDue};
ghost use Rattle.currency_report.specs.Parts.{parts_of, parts_said, report_with};
ghost use Rattle.currency_report.specs.Reads.{said};

use crate::claim::claim_said;
use crate::complete::all_completed;
use crate::lines::{item_lines, lines_of};
use crate::log::log_said;
use crate::{Lines, ReadReport, ReportFault};
use currency_base::NoMemory;
use report_model::{CompletionList, Report, Verdict};
use report_syntax::{LineList, ReadLog, ReportTree};
use spec_model::Specification;
use spec_names::SpecNames;
use std::alloc::Global;

/// What a report says beside its log: the verdict with the lines of its items, and the completions with
/// theirs.
#[derive(Drop)]
pub struct Parts {
    pub verdict: Verdict,
    pub items: LineList,
    pub completions: CompletionList,
    pub begins: LineList,
}

/// The report on a specification that a tree says.
pub fn report_said(
    alloc: Global,
    spec: &Specification,
    tree: ReportTree,
) -> Result<ReadReport, ReportFault>
    ensures due { IsDue (said spec.now.relations tree) result }
    ensures shape { IfOk result (λ r. All (HasShape spec.now.relations) r.report.completions) }
{
    match named_parts(alloc, spec, &tree) {
        Ok(parts) => Ok(report_with(parts, tree.verdict.line, tree.log)),
        Err(fault) => Err(fault),
    }
}

// The report of these parts with a log.
fn report_with(parts: Parts, line: u32, read: ReadLog) -> ReadReport
    ensures { result ≡ report_with parts line read }
{
    let ReadLog { log, steps, .. } = read;
    let Parts {
        verdict,
        items,
        completions,
        begins,
    } = parts;
    ReadReport {
        report: Report {
            verdict,
            completions,
            log,
        },
        lines: Lines {
            verdict: line,
            items,
            completions: begins,
            steps,
        },
    }
}

// What a tree says beside its log, which is well formed.
fn named_parts(alloc: Global, spec: &Specification, tree: &ReportTree) -> Result<Parts, ReportFault>
    ensures due { IsDue (parts_said spec.now.relations tree.now) result }
    ensures shape { IfOk result (λ parts. All (HasShape spec.now.relations) parts.completions) }
{
    let names = SpecNames::of(alloc, spec)?;
    parts_said(alloc, spec, &names, tree)
}

// The same, by the specification's names.
fn parts_said(
    alloc: Global,
    spec: &Specification,
    names: &SpecNames,
    tree: &ReportTree,
) -> Result<Parts, ReportFault>
    requires { names.now ≡ all_names_of spec.now }
    ensures due { IsDue (parts_said spec.now.relations tree.now) result }
    ensures shape { IfOk result (λ parts. All (HasShape spec.now.relations) parts.completions) }
{
    let claimed = &tree.verdict;
    let verdict = match claim_said(alloc, spec, names, claimed.line, &claimed.claim) {
        Ok(verdict) => verdict,
        Err(fault) => return Err(fault),
    };
    let trees = tree.completions.as_slice();
    let completions = match all_completed(alloc, spec, names, tree.version, trees) {
        Ok(completions) => completions,
        Err(fault) => return Err(fault),
    };
    match log_said(alloc, spec, &tree.log) {
        Ok(()) => match parts_of(alloc, tree, verdict, completions) {
            Ok(parts) => Ok(parts),
            Err(_) => Err(ReportFault::NoMemory),
        },
        Err(fault) => Err(fault),
    }
}

// The verdict and the completions of a tree, with their lines.
fn parts_of(
    alloc: Global,
    tree: &ReportTree,
    verdict: Verdict,
    completions: CompletionList,
) -> Result<Parts, NoMemory>
    ensures { IfOk result (λ parts. parts ≡ parts_of tree.now verdict completions) }
{
    let items = item_lines(alloc, &tree.verdict.claim)?;
    let begins = lines_of(alloc, tree.completions.as_slice())?;
    Ok(Parts {
        verdict,
        items,
        completions,
        begins,
    })
}
