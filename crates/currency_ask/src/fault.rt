use currency_base::NoMemory;
use spec_model::Completion;

/// Why a question is not answered.
#[derive(Drop)]
pub enum AskFault {
    /// The query has more than 1,000,000 answers over the current instance of this consistent completion.
    TooMany(Completion),
    /// Want of memory.
    NoMemory,
}

impl From<NoMemory> for AskFault {
    fn from(_: NoMemory) -> AskFault {
        AskFault::NoMemory
    }
}
