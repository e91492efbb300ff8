use log_checker::LogFault;
use report_model::Part;
use spec_model::Flaw;

/// What a verdict asks for and a report lacks.
#[derive(Clone, Copy, PartialEq, Eq)]
pub enum Missing {
    /// The verdict is none of the question's.
    Shape,
    /// No step of the log is the empty clause.
    NoEmptyClause,
    /// No completion is listed.
    NoCompletion,
    /// No step of the log is the unit of this claim, counted from 0: of an asked pair, of the current value at
    /// a place of the items, attribute by attribute, or of an answer.
    NoUnit(u32),
    /// The pair holds in every listed completion.
    NotBroken,
    /// No two listed completions differ at the place.
    NotDifferent,
    /// The answers that are common to the listed completions are not the printed ones.
    NotCommon,
    /// The log has another number of counted steps.
    WrongCount,
}

/// Why a report does not show its verdict.
#[derive(Drop)]
pub enum Unshown {
    /// A listed completion is not consistent.
    BadCompletion(Flaw),
    /// The log is not accepted.
    BadLog(LogFault),
    /// What is listed and derived does not show the verdict.
    NotShown(Missing),
}

/// Why a report is not accepted.
#[derive(Drop)]
pub enum VerifyFault {
    Refused { part: Part, why: Unshown },
    /// Want of memory.
    NoMemory,
}
