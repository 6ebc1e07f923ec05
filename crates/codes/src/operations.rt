// Which operations this telephone begins, which it serves, and which of these wait for its answer.
ghost use Rattle.std.specs.Prelude.{◌≡◌};
ghost use Rattle.codes.specs.Operations.{begins, serves, waits};

pub fn is_begun(operation: u8) -> bool
    ensures { result ≡ begins operation }
{
    matches!(operation, 10..=14 | 17 | 59)
}

pub fn is_waited_for(operation: u8) -> bool
    ensures { result ≡ waits operation }
{
    matches!(operation, 18 | 60..=61)
}

pub fn is_served(operation: u8) -> bool
    ensures { result ≡ serves operation }
{
    matches!(operation, 18 | 38 | 60..=61)
}
