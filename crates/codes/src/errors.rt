// The error codes that may stand in a Return error, and those that each operation may return: by ranges of the number.
ghost use Rattle.std.specs.Prelude.{◌≡◌};
ghost use Rattle.codes.specs.Errors.{listed, may_return, of_service, is_in, register_password-errors, process_unstructured_ss_request_errors};

pub fn is_listed(code: u8) -> bool
    ensures { result ≡ listed code }
{
    matches!(code, 1 | 9..=13 | 16..=21 | 27 | 34..=38 | 43 | 71..=72)
}

// An error of 10 to 14, the operations on a service: most are shared by all five.
fn is_of_service(operation: u8, code: u8) -> bool
    ensures { result ≡ of_service operation code }
{
    match code {
        10..=11 | 13 | 16 | 34..=36 => true,
        17 => operation != 14,
        18 => operation == 14,
        19 | 38 | 43 => matches!(operation, 12..=13),
        20 => matches!(operation, 10 | 12),
        _ => false,
    }
}

fn is_of_password(code: u8) -> bool
    ensures { result ≡ is_in code register_password-errors }
{
    matches!(code, 13 | 19 | 34..=38 | 43)
}

fn is_of_ussd(code: u8) -> bool
    ensures { result ≡ is_in code process_unstructured_ss_request_errors }
{
    matches!(code, 13 | 34..=36 | 71)
}

// Whether the operation may return the error.
pub fn may_return(operation: u8, code: u8) -> bool
    ensures { result ≡ may_return operation code }
{
    match operation {
        10..=14 => is_of_service(operation, code),
        17 => is_of_password(code),
        59 => is_of_ussd(code),
        _ => false,
    }
}
