ghost use Rattle.std.specs.Prelude.{◌≡◌};
ghost use Rattle.currency_base.specs.ErrorCode.{code_text};

/// Why a document is refused.
#[derive(Clone, Copy, Debug, PartialEq, Eq)]
pub enum ErrorCode {
    /// A text is not UTF-8.
    NotUtf8,
    /// No text of the grammar can go on with a token.
    Syntax,
    /// A name was not declared.
    UnknownName,
    /// A name is taken.
    DuplicateName,
    /// Two compared terms are of different kinds.
    Mismatch,
    /// A record has another number of fields than the header, or a field that is not UTF-8.
    Ragged,
    /// A declared column is not in the header, or is there more than once.
    MissingColumn,
    /// A field of an int column is no integer.
    BadInt,
    /// A row name is taken in its relation.
    DuplicateRow,
    /// A row is not in its relation.
    UnknownRow,
    /// The rows of a pair are one row, or of two entities.
    NotOneEntity,
    /// A row is copied already.
    CopyTwice,
    /// A row differs from the one that it is copied from.
    CopyDiffers,
    /// A variable of a query's head or comparison stands in no atom.
    UnsafeVariable,
}

impl ErrorCode {
    /// The code as a refusal prints it.
    pub fn text(&self) -> &'static str
        ensures { result.now ≡ code_text self.now }
    {
        match self {
            ErrorCode::NotUtf8 => "E01",
            ErrorCode::Syntax => "E02",
            ErrorCode::UnknownName => "E03",
            ErrorCode::DuplicateName => "E04",
            ErrorCode::Mismatch => "E05",
            ErrorCode::Ragged => "E06",
            ErrorCode::MissingColumn => "E07",
            ErrorCode::BadInt => "E08",
            ErrorCode::DuplicateRow => "E09",
            ErrorCode::UnknownRow => "E10",
            ErrorCode::NotOneEntity => "E11",
            ErrorCode::CopyTwice => "E12",
            ErrorCode::CopyDiffers => "E13",
            ErrorCode::UnsafeVariable => "E15",
        }
    }
}
