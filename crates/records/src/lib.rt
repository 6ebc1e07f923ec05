// Records: each a length octet from 1 to 255 and that many octets, back to back.
#![tactic(auto)]

ghost use Rattle.std.specs.Prelude.{◌≡◌};
ghost use Rattle.records.specs.Records.{counted};
ghost use Rattle.records.specs.Seen.{ReadsRecord, count_seen};

use octets::Span;

// The message of the record at the front.
pub fn read_record(s: &[u8]) -> Option<Span>
    ensures { ReadsRecord s.now result }
{
    if s.len() < 1 {
        return None;
    }
    let n = s[0] as usize;
    if n == 0 {
        return None;
    }
    if s.len() - 1 < n {
        return None;
    }
    Some(Span {
        start: 1,
        end: 1 + n,
    })
}

// How many records there are, looked at from the first to the last; none where one of them is zero or cut.
pub fn count_records(s: &[u8]) -> Option<usize>
    ensures { count_seen result ≡ counted s.now }
{
    let mut rest = s;
    let mut n = 0;
    while !rest.is_empty() {
        let record = read_record(rest)?;
        rest = &rest[record.end..];
        n += 1;
    }
    Some(n)
}
