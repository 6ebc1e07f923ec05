// Information elements, scanned to the end of a part.
ghost use Rattle.std.specs.Prelude.{◌≡◌};
ghost use Rattle.messages.specs.Scan.{clear};
ghost use Rattle.messages.specs.Seen.{ReadsItem, ReadsRequired, FindsFirst};

use octets::Span;

// A whole information element, and the places where its contents start and end.
#[derive(Clone, Copy)]
pub struct Item {
    pub identifier: u8,
    pub start: usize,
    pub end: usize,
}

// Why a scan goes no further: nothing is left, or what is left is cut.
#[derive(Clone, Copy, Debug, PartialEq, Eq)]
pub enum Ending {
    End,
    Cut,
}

// The information element at the front of a part.
#[tactic(auto, using(crate::proofs::Paths::reading), unfolding(crate::specs::Scan::information))]
pub fn read_item(s: &[u8]) -> Result<Item, Ending>
    ensures { ReadsItem s.now result }
{
    if s.is_empty() {
        return Err(Ending::End);
    }
    let identifier = s[0];
    if 0x80 <= identifier {
        return Ok(Item {
            identifier,
            start: 1,
            end: 1,
        });
    }
    if s.len() < 2 {
        return Err(Ending::Cut);
    }
    let n = s[1] as usize;
    if s.len() - 2 < n {
        return Err(Ending::Cut);
    }
    Ok(Item {
        identifier,
        start: 2,
        end: 2 + n,
    })
}

// Whether the scan meets no identifier from 00 to 0F: it is left with cause 96, at a cut end, or when all is scanned.
#[tactic(auto, using(crate::proofs::Paths::scanning))]
pub fn is_clear(s: &[u8]) -> bool
    ensures { result ≡ clear s.now }
{
    let mut rest = s;
    loop {
        if rest.is_empty() {
            break true;
        }
        if rest[0] < 0x10 {
            break false;
        }
        let Ok(item) = read_item(rest) else {
            break true;
        };
        rest = &rest[item.end..];
    }
}

// The contents of the first whole element with this identifier: their place in all of the part, so that is counted.
#[tactic(auto, using(crate::proofs::Paths::scanning))]
pub fn find(s: &[u8], identifier: u8) -> Option<Span>
    ensures { FindsFirst identifier s.now result }
{
    let mut at = 0;
    loop {
        let Ok(item) = read_item(&s[at..]) else {
            break None;
        };
        if item.identifier == identifier {
            break Some(Span {
                start: at + item.start,
                end: at + item.end,
            });
        }
        at += item.end;
    }
}

// Step 4: the Facility value, if nothing behind it must be understood.
#[tactic(auto, using(crate::proofs::Paths::reading), unfolding(crate::specs::Scan::required))]
pub fn read_required(s: &[u8], kind: u8) -> Option<Span>
    ensures { ReadsRequired kind s.now result }
{
    let value = super::layout::read_mandatory(s, kind)?;
    if !is_clear(&s[value.end..]) {
        return None;
    }
    Some(value)
}
