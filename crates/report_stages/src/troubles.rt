ghost use Rattle.std.specs.Prelude.{◌≡◌, ◌≢◌, ◌⊎◌};
ghost use Rattle.report_stages.specs.Judged.{report_trouble, check_of};

use command_stages::{Check, Trouble, refused};
use currency_base::Name;
use currency_report::ReportFault;
use report_verify::Unshown;
use std::alloc::Global;

/// The trouble that a fault of a report is.
pub fn of_report(alloc: Global, name: &str, fault: ReportFault) -> Trouble
    ensures due { (result ≡ Trouble.NoMemory) ⊎ (result ≡ report_trouble name.now fault) }
    ensures not_words { result ≢ Trouble.Words }
{
    match fault {
        ReportFault::Refused { code, line } => refused(alloc, code, name, line),
        ReportFault::NoMemory => Trouble::NoMemory,
    }
}

/// The trouble that a report does not show its verdict, at the line of the part at fault.
pub fn of_unshown(alloc: Global, name: &str, why: Unshown, line: u32) -> Trouble
    ensures due { (result ≡ Trouble.NoMemory) ⊎ (result ≡ Trouble.Unshown (check_of why) name.now line) }
    ensures not_words { result ≢ Trouble.Words }
{
    let check = match why {
        Unshown::BadCompletion(_) => Check::V1,
        Unshown::BadLog(_) => Check::V2,
        Unshown::NotShown(_) => Check::V3,
    };
    match Name::from_bytes(alloc, name.as_bytes()) {
        Ok(document) => Trouble::Unshown {
            check,
            document,
            line,
        },
        Err(_) => Trouble::NoMemory,
    }
}
