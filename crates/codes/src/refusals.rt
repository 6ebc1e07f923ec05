// Why a call is refused: a refused call writes nothing and changes nothing.
ghost use Rattle.std.specs.Prelude.{◌≡◌};
ghost use Rattle.codes.specs.Refusals.{number_of};

#[derive(Clone, Copy, Debug, PartialEq, Eq)]
pub enum Refusal {
    NotListed,
    NoValueFree,
    NotOpen,
    StillWaiting,
    NoSuchInvoke,
    WrongParameter,
    MessageTooLong,
    BufferTooShort,
    TableDamaged,
    BadRecord,
    OutputTooShort,
}

impl Refusal {
    // The number that C gets.
    pub fn number(self) -> u8
        ensures { result ≡ number_of self }
    {
        match self {
            Refusal::NotListed => 20,
            Refusal::NoValueFree => 21,
            Refusal::NotOpen => 22,
            Refusal::StillWaiting => 23,
            Refusal::NoSuchInvoke => 24,
            Refusal::WrongParameter => 25,
            Refusal::MessageTooLong => 26,
            Refusal::BufferTooShort => 27,
            Refusal::TableDamaged => 28,
            Refusal::BadRecord => 30,
            Refusal::OutputTooShort => 31,
        }
    }
}
