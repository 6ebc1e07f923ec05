// The problems that a Reject can name: the tag of their kind, and their number under it.
ghost use Rattle.std.specs.Prelude.{◌≡◌};
ghost use Rattle.places.specs.Problems.{tag_of, number_of, Becomes};

#[derive(Clone, Copy, Debug, PartialEq, Eq)]
pub enum Problem {
    UnrecognizedComponent,
    MistypedComponent,
    BadlyStructured,
    DuplicateInvoke,
    UnrecognizedOperation,
    MistypedInvoke,
    ResourceLimit,
    UnrecognizedLinked,
    UnexpectedLinkedResponse,
    UnexpectedLinkedOperation,
    UnrecognizedResult,
    MistypedResult,
    UnrecognizedErrorId,
    UnrecognizedError,
    UnexpectedError,
}

impl Problem {
    // 80 general, 81 of an Invoke, 82 of a Return result, 83 of a Return error.
    pub fn tag(self) -> u8
        ensures { result ≡ tag_of self }
    {
        match self {
            Problem::UnrecognizedComponent
            | Problem::MistypedComponent
            | Problem::BadlyStructured => 0x80,
            Problem::UnrecognizedResult | Problem::MistypedResult => 0x82,
            Problem::UnrecognizedErrorId | Problem::UnrecognizedError | Problem::UnexpectedError =>
                0x83,
            _ => 0x81,
        }
    }

    pub fn number(self) -> u8
        ensures { result ≡ number_of self }
    {
        match self {
            Problem::UnrecognizedComponent
            | Problem::DuplicateInvoke
            | Problem::UnrecognizedResult
            | Problem::UnrecognizedErrorId => 0,
            Problem::MistypedComponent | Problem::UnrecognizedOperation => 1,
            Problem::BadlyStructured
            | Problem::MistypedInvoke
            | Problem::MistypedResult
            | Problem::UnrecognizedError => 2,
            Problem::ResourceLimit | Problem::UnexpectedError => 3,
            Problem::UnrecognizedLinked => 5,
            Problem::UnexpectedLinkedResponse => 6,
            Problem::UnexpectedLinkedOperation => 7,
        }
    }
}

// A place where no whole element stands.
impl From<elements::Fault> for Problem {
    ghost from_gives = { Becomes };

    fn from(fault: elements::Fault) -> Problem {
        match fault {
            elements::Fault::Missing => Problem::MistypedComponent,
            elements::Fault::Unreadable => Problem::BadlyStructured,
        }
    }
}
