// What stands behind the id of each kind of component, and the whole of a Reject.
ghost use Rattle.components.specs.Component.{invoke_of, result_of, error_of, reject_of};
ghost use Rattle.components.specs.Seen.{ReadsKind};

use super::shown::Shown;
use places::problems::Problem;

// What follows the id of an Invoke.
#[tactic(auto, unfolding(crate::specs::Component::invoke_of))]
pub fn read_invoke(s: &[u8], id: i8) -> Result<Shown, Problem>
    ensures { ReadsKind (invoke_of id s.now) s.now result }
{
    let calls = places::read_calls(s)?;
    places::read_last(&s[calls.end..])?;
    Ok(Shown::Invoke {
        id,
        linked: calls.linked,
        operation: calls.operation,
        parameter: s.len() - calls.end,
    })
}

// What follows the id of a Return error.
#[tactic(auto, unfolding(crate::specs::Component::error_of))]
pub fn read_error(s: &[u8], id: i8) -> Result<Shown, Problem>
    ensures { ReadsKind (error_of id s.now) s.now result }
{
    let coded = places::read_coded(s)?;
    Ok(Shown::Error {
        id,
        code: coded.octet,
        parameter: coded.parameter,
    })
}

// What follows the id of a Return result: nothing, or the 30 and nothing behind it.
#[tactic(auto, using(places::proofs::Left::left_some, places::proofs::Left::last_end), unfolding(crate::specs::Component::result_of))]
pub fn read_result(s: &[u8], id: i8) -> Result<Shown, Problem>
    ensures { ReadsKind (result_of id s.now) s.now result }
{
    if s.is_empty() {
        return Ok(Shown::Result {
            id,
            operation: None,
            parameter: 0,
        });
    }
    let element = elements::read_element(s)?;
    if element.tag != 0x30 {
        return Err(Problem::MistypedComponent);
    }
    let coded = places::read_coded(&s[element.start..element.end])?;
    if element.end != s.len() {
        return Err(Problem::MistypedComponent);
    }
    Ok(Shown::Result {
        id,
        operation: Some(coded.octet),
        parameter: coded.parameter,
    })
}

// The contents of a Reject.
#[tactic(auto, using(places::proofs::Left::left_some), unfolding(crate::specs::Component::reject_of))]
pub fn read_reject(s: &[u8]) -> Result<Shown, Problem>
    ensures { ReadsKind (reject_of s.now) s.now result }
{
    let rejected = places::read_rejected(s)?;
    let element = elements::read_element(&s[rejected.end..])?;
    if element.end != s.len() - rejected.end {
        return Err(Problem::MistypedComponent);
    }
    if !matches!(element.tag, 0x80..=0x83) {
        return Err(Problem::MistypedComponent);
    }
    if element.end - element.start != 1 {
        return Err(Problem::MistypedComponent);
    }
    Ok(Shown::Reject {
        id: rejected.id,
        tag: element.tag,
        problem: s[rejected.end + element.start],
    })
}
