ghost use Rattle.std.specs.Prelude.{◌≡◌};
ghost use Rattle.command_stages.specs.Endings.{ending_status};

use currency_base::ByteList;

/// How a command ends whose job was done.
#[derive(Clone, Copy)]
pub enum Ending {
    /// There is just this to tell.
    Printed,
    /// A question is decided, or all that were asked are.
    Decided,
    /// A question is decided, the answer is no, and the status is to tell that.
    Denied,
    /// The budget was spent without a verdict.
    Undecided,
    /// What was asked for is given as a table.
    Tabled,
    /// There is no consistent completion of which a table could tell.
    Inconsistent,
    /// The budget was spent before the table was whole.
    Open,
}

impl Ending {
    /// The exit status, once the text is written.
    pub fn status(self) -> u8
        ensures { result ≡ ending_status self }
    {
        match self {
            Ending::Printed => 0,
            Ending::Decided => 0,
            Ending::Denied => 1,
            Ending::Undecided => 3,
            Ending::Tabled => 0,
            Ending::Inconsistent => 10,
            Ending::Open => 3,
        }
    }
}

/// What a command came to whose job was done: the text that is written, and how it ends.
#[derive(Drop)]
pub struct Done {
    pub text: ByteList,
    pub ending: Ending,
}
