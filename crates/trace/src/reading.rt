// Records of a trace: a direction, a length and the message.
ghost use Rattle.std.specs.Prelude.{◌≡◌};
ghost use Rattle.trace.specs.Records.{good_record, records_in};
ghost use Rattle.trace.specs.Seen.{ReadsRecord, is_sound};

use records::read_record;

// The record at the front: its direction, and where its message ends; that begins at octet 2.
#[derive(Clone, Copy)]
pub struct Found {
    pub direction: u8,
    pub end: usize,
}

pub fn read_traced(s: &[u8]) -> Option<Found>
    ensures { ReadsRecord s.now result }
{
    let direction = *s.first()?;
    if 1 < direction {
        return None;
    }
    let message = read_record(&s[1..])?;
    Some(Found {
        direction,
        end: 1 + message.end,
    })
}

// Whether records stand there back to back, and nothing else.
pub fn are_records(s: &[u8]) -> bool
    ensures { result ≡ is_sound (records_in s.now) }
{
    let mut rest = s;
    while !rest.is_empty() {
        let Some(found) = read_traced(rest) else {
            return false;
        };
        rest = &rest[found.end..];
    }
    true
}

// Whether a record of this direction and message may be written.
pub fn is_good(direction: u8, message: &[u8]) -> bool
    ensures { result ≡ good_record (record { direction = direction; message = message.now }) }
{
    (direction <= 1) & (1 <= message.len()) & (message.len() <= 255)
}
