ghost use Rattle.std.specs.Prelude.{◌≡◌, slice_index_or};
ghost use Rattle.currency_report.specs.Outcomes.{Steps};
ghost use Rattle.currency_report.specs.Reads.{log_fault_of, log_said};

use crate::ReportFault;
use currency_base::ErrorCode;
use log_form::{FormFault, first_fault};
use report_syntax::{LineList, ReadLog};
use spec_model::Specification;
use std::alloc::Global;

/// Is the log well formed on a specification? The first of its statements or steps that is at fault is
/// refused.
pub fn log_said(alloc: Global, spec: &Specification, read: &ReadLog) -> Result<(), ReportFault>
    ensures { Steps read.now.log (log_said spec.now.relations read.now) result }
{
    match first_fault(alloc, spec, &read.log) {
        Ok(None) => Ok(()),
        Ok(Some(fault)) => Err(log_fault_of(read, fault)),
        Err(_) => Err(ReportFault::NoMemory),
    }
}

// The refusal of a log that is not well formed.
fn log_fault_of(read: &ReadLog, fault: FormFault) -> ReportFault
    ensures { result ≡ log_fault_of read.now fault }
{
    match fault {
        FormFault::Statement { place, code } => ReportFault::Refused {
            code,
            line: line_at(&read.statements, place),
        },
        FormFault::Step { place } => ReportFault::Refused {
            code: ErrorCode::UnknownName,
            line: line_at(&read.steps, place),
        },
    }
}

// The line at a place; each statement and each step has one.
fn line_at(lines: &LineList, place: usize) -> u32
    ensures { result ≡ slice_index_or lines.now place 0 }
{
    match lines.as_slice().get(place) {
        Some(line) => *line,
        None => 0,
    }
}
