// A component as it is shown. Ids are signed; a parameter is told by its length, since it stands last.
ghost use Rattle.std.specs.Prelude.{◌≡◌};
ghost use Rattle.components.specs.Seen.{parameter_length};

#[derive(Clone, Copy)]
pub enum Shown {
    Invoke {
        id: i8,
        linked: Option<i8>,
        operation: u8,
        parameter: usize,
    },
    Result {
        id: i8,
        operation: Option<u8>,
        parameter: usize,
    },
    Error {
        id: i8,
        code: u8,
        parameter: usize,
    },
    // octets, since a Reject that is read may carry any problem
    Reject {
        id: Option<i8>,
        tag: u8,
        problem: u8,
    },
}

impl Shown {
    // How many octets the parameter takes, at the end of the Facility value.
    pub fn parameter_length(self) -> usize
        ensures { result ≡ parameter_length self }
    {
        match self {
            Shown::Invoke { parameter, .. }
            | Shown::Result { parameter, .. }
            | Shown::Error { parameter, .. } => parameter,
            Shown::Reject { .. } => 0,
        }
    }
}
