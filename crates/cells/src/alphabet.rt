// The default alphabet of GSM 03.38 and its extension table. The compiler makes one table of the arms of the three functions
// that have them: a const array would be built anew at each use.
ghost use Rattle.std.specs.Prelude.{◌≡◌, ◌&&◌, ◌<◌};
ghost use Rattle.cells.specs.Alphabet.{made_by};
ghost use Rattle.cells.specs.Marks.{has_own, place_alone, place_of, mark_at};

// Behind the first two rows: 5B to 60, 7B to 7F, and from 43 on the codes of the extension by their lower four bits.
fn later_mark(place: u8) -> u16
    requires { (0x1F < place) × (place < 59) }
    ensures { result ≡ mark_at place }
{
    match place {
        32 => 0xC4,
        33 => 0xD6,
        34 => 0xD1,
        35 => 0xDC,
        36 => 0xA7,
        37 => 0xBF,
        38 => 0xE4,
        39 => 0xF6,
        40 => 0xF1,
        41 => 0xFC,
        42 => 0xE0,
        43 => 0x7C,
        47 => 0x5E,
        48 => 0x20AC,
        51 => 0x7B,
        52 => 0x7D,
        53 => 0x0C,
        55 => 0x5B,
        56 => 0x7E,
        57 => 0x5D,
        58 => 0x5C,
        _ => 0,
    }
}

// The second row of the alphabet, and what is behind it.
fn second_mark(place: u8) -> u16
    requires { (0x0F < place) × (place < 59) }
    ensures { result ≡ mark_at place }
{
    match place {
        0x10 => 0x0394,
        0x11 => 0x5F,
        0x12 => 0x03A6,
        0x13 => 0x0393,
        0x14 => 0x039B,
        0x15 => 0x03A9,
        0x16 => 0x03A0,
        0x17 => 0x03A8,
        0x18 => 0x03A3,
        0x19 => 0x0398,
        0x1A => 0x039E,
        0x1B => 0x20,
        0x1C => 0xC6,
        0x1D => 0xE6,
        0x1E => 0xDF,
        0x1F => 0xC9,
        _ => later_mark(place),
    }
}

// The characters that are not what their septet is in ASCII: the first row of the alphabet, and what is behind it.
fn mark(place: u8) -> u16
    requires { place < 59 }
    ensures { result ≡ mark_at place }
{
    match place {
        0x00 => 0x40,
        0x01 => 0xA3,
        0x02 => 0x24,
        0x03 => 0xA5,
        0x04 => 0xE8,
        0x05 => 0xE9,
        0x06 => 0xF9,
        0x07 => 0xEC,
        0x08 => 0xF2,
        0x09 => 0xC7,
        0x0A => 0x0A,
        0x0B => 0xD8,
        0x0C => 0xF8,
        0x0D => 0x0D,
        0x0E => 0xC5,
        0x0F => 0xE5,
        _ => second_mark(place),
    }
}

// Where the character of a septet by itself stands among the marks; 59 if it stands nowhere.
fn place_alone(septet: u8) -> u8
    ensures { result ≡ place_alone septet }
{
    if septet < 0x20 {
        return septet;
    }
    if septet < 0x5B {
        return 59;
    }
    if septet <= 0x60 {
        return septet - 0x3B;
    }
    if septet < 0x7B {
        return 59;
    }
    septet - 0x55
}

// No two codes with a character of their own have the same lower four bits. Digit k of the number is the upper half of the one that
// ends in k, or 8, which is that of none.
fn has_own(escaped: bool, code: u8) -> bool
    ensures { result ≡ (escaped && has_own code) }
{
    if !escaped {
        return false;
    }
    (0x2333802288618884u64 >> (code % 16 * 4)) % 16 == (code / 16) as u64
}

fn place_of(escaped: bool, septet: u8) -> u8
    ensures { result ≡ place_of escaped septet }
{
    if has_own(escaped, septet) {
        return 43 + septet % 16;
    }
    place_alone(septet)
}

// The character that a septet makes, behind an escape or by itself.
pub fn made_by(escaped: bool, septet: u8) -> u16
    requires { septet < 128 }
    ensures { result ≡ made_by escaped septet }
{
    let place = place_of(escaped, septet);
    if place != 59 {
        return mark(place);
    }
    if septet == 0x24 {
        return 0xA4;
    }
    if septet == 0x40 {
        return 0xA1;
    }
    septet as u16
}
