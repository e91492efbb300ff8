ghost use Rattle.std.specs.Prelude.{◌≡◌, All, IfOk};
ghost use Rattle.spec_model.specs.Completion.{HasShape};
ghost use Rattle.spec_names.specs.Names.{all_names_of};
ghost use Rattle.currency_report.specs.Completed.{completed, later_completed, all_completed};
ghost use Rattle.currency_report.specs.Following.{next_completed};
ghost use Rattle.currency_report.specs.Outcomes.{IsDue};

use crate::ReportFault;
use crate::rank::rank_all;
use completion_fill::fill;
use report_model::CompletionList;
use report_syntax::{CompletionTree, Version};
use spec_model::{Completion, Specification};
use spec_names::SpecNames;
use std::alloc::Global;

// The completion that a report lists.
#[tactic(auto, unfolding(crate::specs::Completed::completed))]
fn completed(
    alloc: Global,
    spec: &Specification,
    names: &SpecNames,
    tree: &CompletionTree,
) -> Result<Completion, ReportFault>
    requires { names.now ≡ all_names_of spec.now }
    ensures due { IsDue (completed spec.now.relations tree.now) result }
    ensures shape { IfOk result (HasShape spec.now.relations) }
{
    let mut completion = Completion::new(alloc, spec)?;
    match rank_all(
        alloc,
        spec,
        names,
        &mut completion,
        tree.rankings.as_slice(),
    ) {
        Ok(()) => Ok(completion),
        Err(fault) => Err(fault),
    }
}

// A completion that comes after the first one.
fn later_completed(
    alloc: Global,
    spec: &Specification,
    names: &SpecNames,
    version: Version,
    first: &Completion,
    tree: &CompletionTree,
) -> Result<Completion, ReportFault>
    requires names { names.now ≡ all_names_of spec.now }
    requires first { HasShape spec.now.relations first.now }
    ensures due { IsDue (later_completed version spec.now.relations first.now tree.now) result }
    ensures shape { IfOk result (HasShape spec.now.relations) }
{
    let mut completion = match completed(alloc, spec, names, tree) {
        Ok(completion) => completion,
        Err(fault) => return Err(fault),
    };
    match version {
        Version::First => Ok(completion),
        Version::Second => match fill(alloc, spec, first, &mut completion) {
            Ok(()) => Ok(completion),
            Err(_) => Err(ReportFault::NoMemory),
        },
    }
}

// The completion that comes after these.
fn next_completed(
    alloc: Global,
    spec: &Specification,
    names: &SpecNames,
    version: Version,
    before: &[Completion],
    tree: &CompletionTree,
) -> Result<Completion, ReportFault>
    requires names { names.now ≡ all_names_of spec.now }
    requires shape { All (HasShape spec.now.relations) before.now }
    ensures due { IsDue (next_completed version spec.now.relations before.now tree.now) result }
    ensures shape { IfOk result (HasShape spec.now.relations) }
{
    match before {
        [] => completed(alloc, spec, names, tree),
        [first, ..] => later_completed(alloc, spec, names, version, first, tree),
    }
}

/// The completions that a report lists, in their order; the first that is refused ends it.
pub fn all_completed(
    alloc: Global,
    spec: &Specification,
    names: &SpecNames,
    version: Version,
    trees: &[CompletionTree],
) -> Result<CompletionList, ReportFault>
    requires { names.now ≡ all_names_of spec.now }
    ensures due { IsDue (all_completed version spec.now.relations trees.now) result }
    ensures shape { IfOk result (All (HasShape spec.now.relations)) }
{
    let mut list = CompletionList::new(alloc);
    for tree in trees {
        let completion = match next_completed(alloc, spec, names, version, list.as_slice(), tree) {
            Ok(completion) => completion,
            Err(fault) => return Err(fault),
        };
        list.push(completion)?;
    }
    Ok(list)
}
