// Elements: one tag octet, a length, contents. Readers get a part and can't read outside it.
#![tactic(auto)]

ghost use Rattle.std.specs.Prelude.{◌≡◌, ◌+◌, ◌≤◌, ◌<◌, length};
ghost use Rattle.octets.specs.Splice.{splice};
ghost use Rattle.elements.specs.Element.{row, shortest, header};
ghost use Rattle.elements.specs.Found.{ReadsLength, ReadsElement};

// How many octets of contents follow, and how many octets said so.
#[derive(Clone, Copy)]
pub struct Length {
    pub octets: usize,
    pub taken: usize,
}

// A whole element: its tag, and the places where its contents start and end. The header's length is the start.
#[derive(Clone, Copy)]
pub struct Element {
    pub tag: u8,
    pub start: usize,
    pub end: usize,
}

// Why no whole element stands at the front of a part.
#[derive(Clone, Copy, Debug, PartialEq, Eq)]
pub enum Fault {
    Missing,
    Unreadable,
}

// The length at the front of a part, in any form that is read.
pub fn read_length(s: &[u8]) -> Option<Length>
    ensures { ReadsLength s.now result }
{
    if s.len() < 1 {
        return None;
    }
    let first = s[0];
    if first < 0x80 {
        return Some(Length {
            octets: first as usize,
            taken: 1,
        });
    }
    if first == 0x81 {
        if s.len() < 2 {
            return None;
        }
        return Some(Length {
            octets: s[1] as usize,
            taken: 2,
        });
    }
    if first != 0x82 {
        return None;
    }
    if s.len() < 3 {
        return None;
    }
    Some(Length {
        octets: (s[1] as usize) * 256 + (s[2] as usize),
        taken: 3,
    })
}

// The element at the front of a part.
pub fn read_element(s: &[u8]) -> Result<Element, Fault>
    ensures { ReadsElement s.now result }
{
    if s.len() < 1 {
        return Err(Fault::Missing);
    }
    let tag = s[0];
    // ranges: a short test of the low five bits would let the compiler copy all this into each of the twelve callers
    match tag {
        0x01..=0x1E
        | 0x20..=0x3E
        | 0x40..=0x5E
        | 0x60..=0x7E
        | 0x80..=0x9E
        | 0xA0..=0xBE
        | 0xC0..=0xDE
        | 0xE0..=0xFE => {}
        _ => return Err(Fault::Unreadable),
    }
    let Some(length) = read_length(&s[1..]) else {
        return Err(Fault::Unreadable);
    };
    let start = 1 + length.taken;
    if s.len() - start < length.octets {
        return Err(Fault::Unreadable);
    }
    Ok(Element {
        tag,
        start,
        end: start + length.octets,
    })
}

// Whether a part is a row of zero or more elements, and nothing else.
pub fn is_row(s: &[u8]) -> bool
    ensures { result ≡ row s.now }
{
    let mut rest = s;
    while !rest.is_empty() {
        let Ok(element) = read_element(rest) else {
            return false;
        };
        rest = &rest[element.end..];
    }
    true
}

// How many octets the header of n octets of contents takes.
pub fn header_length(n: usize) -> usize
    ensures { result ≡ 1 + length (shortest n) }
{
    if n < 128 {
        return 2;
    }
    if n < 256 {
        return 3;
    }
    4
}

// Writes the header of n octets of contents at a place, in shortest form; answers the place behind it.
pub fn write_header(buf: &mut [u8], at: usize, tag: u8, n: usize) -> usize
    requires { (n < 65536) × (at + length (header tag n) ≤ length buf.old) }
    ensures writes { buf.new ≡ splice buf.old at (header tag n) }
    ensures next { result ≡ at + length (header tag n) }
{
    if n < 128 {
        let short = [tag, n as u8];
        octets::put(buf, at, &short);
        return at + 2;
    }
    if n < 256 {
        let long = [tag, 0x81, n as u8];
        octets::put(buf, at, &long);
        return at + 3;
    }
    let longest = [tag, 0x82, (n / 256) as u8, (n % 256) as u8];
    octets::put(buf, at, &longest);
    at + 4
}
