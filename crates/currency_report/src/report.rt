ghost use Rattle.std.specs.Prelude.{◌≡◌};
ghost use Rattle.currency_report.specs.Lines.{HasPart, line_of};

use currency_base::{ErrorCode, NoMemory};
use report_model::{Part, Report};
use report_syntax::LineList;
use text_tokens::TextFault;

/// The lines on which the parts of a report begin: the verdict, its items, the completions and the steps of
/// the log, in order.
#[derive(Drop)]
pub struct Lines {
    pub verdict: u32,
    pub items: LineList,
    pub completions: LineList,
    pub steps: LineList,
}

impl Lines {
    /// The line of a part's first word.
    pub fn of(&self, part: Part) -> u32
        requires { HasPart self.now part }
        ensures { result ≡ line_of self.now part }
    {
        match part {
            Part::Verdict => self.verdict,
            Part::Item(place) => *self.items.get(place as usize),
            Part::Completion(place) => *self.completions.get(place as usize),
            Part::Step(place) => *self.steps.get(place as usize),
        }
    }
}

/// A report as it was read, with the lines of its parts.
#[derive(Drop)]
pub struct ReadReport {
    pub report: Report,
    pub lines: Lines,
}

/// Why a text is no report on a specification.
#[derive(Clone, Copy, Debug, PartialEq, Eq)]
pub enum ReportFault {
    Refused { code: ErrorCode, line: u32 },
    /// Want of memory.
    NoMemory,
}

impl From<NoMemory> for ReportFault {
    ghost use Rattle.std.specs.Prelude.{◌≡◌};
    ghost use Rattle.currency_report.specs.declared.report.ReportFault.TheVariants;

    ghost from_gives = { λ _ e. e ≡ TheVariants.NoMemory };

    fn from(_: NoMemory) -> Self {
        ReportFault::NoMemory
    }
}

impl From<TextFault> for ReportFault {
    ghost use Rattle.std.specs.Prelude.{◌≡◌};
    ghost use Rattle.currency_report.specs.Reads.{fault_of};

    ghost from_gives = { λ fault e. e ≡ fault_of fault };

    /// The refusal of a text that is no report.
    fn from(fault: TextFault) -> Self {
        let (code, line) = match fault {
            TextFault::NotUtf8 { line } => (ErrorCode::NotUtf8, line),
            TextFault::Syntax { line } => (ErrorCode::Syntax, line),
            TextFault::NoMemory => return ReportFault::NoMemory,
        };
        ReportFault::Refused { code, line }
    }
}
