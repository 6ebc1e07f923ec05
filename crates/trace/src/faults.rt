// Why a block is refused.
ghost use Rattle.std.specs.Prelude.{◌≡◌};
ghost use Rattle.trace.specs.Faults.{number_of};

// In the order in which they are looked for.
#[derive(Clone, Copy, Debug, PartialEq, Eq)]
pub enum Fault {
    WrongLength,
    WrongSum,
    TooMuchUsed,
    BadRecords,
    WrongNumber,
}

impl Fault {
    // The number that is told.
    pub fn number(self) -> u8
        ensures { result ≡ number_of self }
    {
        match self {
            Fault::WrongLength => 32,
            Fault::WrongSum => 33,
            Fault::TooMuchUsed => 34,
            Fault::BadRecords => 35,
            Fault::WrongNumber => 36,
        }
    }
}
