// Lines that tell records: `received HEX` or `sent HEX`, and lines that go on with the record before.
ghost use Rattle.std.specs.Prelude.{◌≡◌, ◌≤◌, length, take};
ghost use Rattle.trace_lines.specs.Told.{kind_if, ends, grown, or_refuses, followed};
ghost use Rattle.trace_lines.specs.Desk.{Joins, Ready, Follows, Lined, NextLined, begun_seen, next_seen, pen_seen};

use words::Ending;
use words::hex::read_hex;
use words::text::{is_blank, is_same, word_at};

// What a line is. A first line has its octets from a place on.
#[derive(Clone, Copy)]
pub enum Kind {
    Passed,
    Onward,
    First { direction: u8, at: usize },
    Other,
}

// A record that is begun: so many octets of it stand in a buffer, and it begins on this line.
#[derive(Clone, Copy)]
pub struct Pen {
    pub direction: u8,
    pub count: usize,
    pub line: u64,
}

pub fn kind_of(line: &[u8], long: bool) -> Kind
    ensures { result ≡ kind_if long line.now }
{
    if long {
        return Kind::Other;
    }
    let first = word_at(line, 0);
    let word = octets::part(line, first.start, first.end);
    if word.is_empty() {
        return Kind::Passed;
    }
    if word[0] == b'#' {
        return Kind::Passed;
    }
    if is_blank(line[0]) {
        return Kind::Onward;
    }
    if is_same(word, b"received") {
        return Kind::First {
            direction: 0,
            at: first.end,
        };
    }
    if is_same(word, b"sent") {
        return Kind::First {
            direction: 1,
            at: first.end,
        };
    }
    Kind::Other
}

// Whether the record before a line is ended by it.
pub fn is_ending(kind: Kind) -> bool
    ensures { result ≡ ends kind }
{
    matches!(kind, Kind::First { .. } | Kind::Other)
}

// Octets in hex behind those that stand in the buffer: how many there are then; none if they are bad.
fn join(text: &[u8], message: &mut [u8], count: usize) -> Option<usize>
    requires { (count ≤ 255) × (length message.old ≡ 255) }
    ensures { Joins text.now count message.old message.new result }
{
    let mut space = [0u8; 255];
    let row = read_hex(text, &mut space);
    let Ending::Whole = row.ends else {
        return None;
    };
    if 255 < count + row.count {
        return None;
    }
    octets::put(message, count, &space[..row.count]);
    Some(count + row.count)
}

// A record with octets more, or the line on which it begins.
fn grow(text: &[u8], message: &mut [u8], pen: Pen) -> Result<Option<Pen>, u64>
    requires { (pen.count ≤ 255) × (length message.old ≡ 255) }
    ensures { Follows (or_refuses pen.line (grown (begun_seen pen message.old) text.now)) message.new result }
{
    let Some(count) = join(text, message, pen.count) else {
        return Err(pen.line);
    };
    Ok(Some(Pen { count, ..pen }))
}

// The record that is begun behind line n, or the line that is refused. The buffer is a slice: its callers may hold no array.
pub fn follow(
    kind: Kind,
    line: &[u8],
    n: u64,
    message: &mut [u8],
    pen: Option<Pen>,
) -> Result<Option<Pen>, u64>
    requires { Ready pen × (length message.old ≡ 255) }
    ensures next { Follows (followed kind line.now n (pen_seen pen message.old)) message.new result }
    ensures lined { 1 ≤ n → Lined (pen_seen pen message.old) → NextLined (next_seen result message.new) }
{
    match kind {
        Kind::Passed => Ok(pen),
        Kind::Onward => {
            let Some(pen) = pen else {
                return Err(n);
            };
            grow(line, message, pen)
        }
        Kind::First { direction, at } => {
            let begun = Pen {
                direction,
                count: 0,
                line: n,
            };
            grow(octets::part(line, at, line.len()), message, begun)
        }
        Kind::Other => Err(n),
    }
}
