use currency_base::{ErrorCode, Name, Value};

/// Which check a report fails, as a refusal prints it.
#[derive(Clone, Copy, PartialEq, Eq)]
pub enum Check {
    /// A listed completion is not consistent.
    V1,
    /// The log is not accepted.
    V2,
    /// What is listed and derived does not show the verdict.
    V3,
}

/// Why a command does not do its job.
#[derive(Drop)]
pub enum Trouble {
    /// The words are none that the program takes.
    Words,
    /// The report does not show its verdict.
    Unshown {
        check: Check,
        document: Name,
        line: u32,
    },
    /// A document is refused: one that the words name, or a table that the specification or the question names.
    /// For a table the line is the number of the record.
    Refused {
        code: ErrorCode,
        document: Name,
        line: u32,
    },
    /// A row differs from the row that it is copied from, at the first place where it does. The line is
    /// that of the mapping, and the values are the row's and then its source's.
    CopyDiffers {
        document: Name,
        line: u32,
        target: Value,
        source: Value,
    },
    /// A quantity is above its bound; the number is that of the limit: 1 is of the texts of a specification and
    /// a question, 2 of the tables that they name, 3 of the answers of a query over one completion (more than
    /// 1,000,000), 12 of the pairs that a question asks about (more than 10,000,000) and of the parts of a query,
    /// and the others are of specifications.
    Limit(u8),
    /// The shelf could not give this document.
    ReadFault(Name),
    /// Want of memory.
    NoMemory,
}
