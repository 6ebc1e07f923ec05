// The places of a component, each read from the front of a part; a fault leaves as its problem.
#![tactic(auto)]

pub mod problems;

ghost use Rattle.std.specs.Prelude.{◌≡◌};
ghost use Rattle.places.specs.Seen.{ReadsOctet, ReadsSingle, ReadsCalls, ReadsLast, ReadsCoded, ReadsRejected};

use crate::problems::Problem;
use elements::Element;

// The octet of a place, and where the place ends.
#[derive(Clone, Copy)]
pub struct Single {
    pub octet: u8,
    pub end: usize,
}

// A linked id, if there is one, and the operation.
#[derive(Clone, Copy)]
pub struct Calls {
    pub linked: Option<i8>,
    pub operation: u8,
    pub end: usize,
}

// The parameter is the last octets of the part, so many of them.
#[derive(Clone, Copy)]
pub struct Coded {
    pub octet: u8,
    pub parameter: usize,
}

// The id of a Reject; none where 05 00 stands in its place.
#[derive(Clone, Copy)]
pub struct Rejected {
    pub id: Option<i8>,
    pub end: usize,
}

// The octet of a place, from the contents of the element under this tag: the tag that is wanted, and one octet.
fn octet_in(contents: &[u8], tag: u8, wanted: u8) -> Result<u8, Problem>
    ensures { ReadsOctet wanted tag contents.now result }
{
    if tag != wanted {
        return Err(Problem::MistypedComponent);
    }
    if contents.len() != 1 {
        return Err(Problem::MistypedComponent);
    }
    Ok(contents[0])
}

// A place of one octet: an id, an operation or an error code.
#[tactic(auto, unfolding(crate::specs::Places::single))]
pub fn read_single(s: &[u8], tag: u8) -> Result<Single, Problem>
    ensures { ReadsSingle tag s.now result }
{
    let element = elements::read_element(s)?;
    let octet = octet_in(&s[element.start..element.end], element.tag, tag)?;
    Ok(Single {
        octet,
        end: element.end,
    })
}

// What is left: no parameter, or one and nothing behind it.
#[tactic(auto, using(crate::proofs::Left::left_some), unfolding(crate::specs::Places::parameter))]
pub fn read_last(s: &[u8]) -> Result<(), Problem>
    ensures { ReadsLast s.now result }
{
    if s.is_empty() {
        return Ok(());
    }
    let parameter = elements::read_element(s)?;
    if parameter.end != s.len() {
        return Err(Problem::MistypedComponent);
    }
    Ok(())
}

// An optional linked id and the operation.
#[tactic(auto, unfolding(crate::specs::Places::invoke_places))]
pub fn read_calls(s: &[u8]) -> Result<Calls, Problem>
    ensures { ReadsCalls s.now result }
{
    let first = elements::read_element(s)?;
    if first.tag != 0x80 {
        let operation = octet_in(&s[first.start..first.end], first.tag, 0x02)?;
        return Ok(Calls {
            linked: None,
            operation,
            end: first.end,
        });
    }
    let linked = octet_in(&s[first.start..first.end], first.tag, 0x80)?;
    let operation = read_single(&s[first.end..], 0x02)?;
    Ok(Calls {
        linked: Some(codes::ids::id_of(linked)),
        operation: operation.octet,
        end: first.end + operation.end,
    })
}

// An operation or error code, and an optional parameter.
#[tactic(auto, unfolding(crate::specs::Places::coded))]
pub fn read_coded(s: &[u8]) -> Result<Coded, Problem>
    ensures { ReadsCoded s.now result }
{
    let code = read_single(s, 0x02)?;
    read_last(&s[code.end..])?;
    Ok(Coded {
        octet: code.octet,
        parameter: s.len() - code.end,
    })
}

// The id of a Reject, or 05 00 in its place.
#[tactic(auto, using(crate::proofs::Left::left_some), unfolding(crate::specs::Places::rejected))]
pub fn read_rejected(s: &[u8]) -> Result<Rejected, Problem>
    ensures { ReadsRejected s.now result }
{
    let place = elements::read_element(s)?;
    if place.tag == 0x05 {
        if place.end != place.start {
            return Err(Problem::MistypedComponent);
        }
        return Ok(Rejected {
            id: None,
            end: place.end,
        });
    }
    let id = octet_in(&s[place.start..place.end], place.tag, 0x02)?;
    Ok(Rejected {
        id: Some(codes::ids::id_of(id)),
        end: place.end,
    })
}
