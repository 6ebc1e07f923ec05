// Octets in hex, with or without blanks between them.
ghost use Rattle.std.specs.Prelude.{◌≡◌};
ghost use Rattle.words.specs.Hex.{ReadsDigit, ReadsHex};

use crate::Ending;
use crate::text::is_blank;

// How many octets were read, and how they end.
#[derive(Clone, Copy)]
pub struct Row {
    pub count: usize,
    pub ends: Ending,
}

// The value of a digit.
fn digit_of(c: u8) -> Option<u8>
    ensures { ReadsDigit c result }
{
    match c {
        b'0'..=b'9' => Some(c - 48),
        b'A'..=b'F' => Some(c - 55),
        b'a'..=b'f' => Some(c - 87),
        _ => None,
    }
}

// Reads a row of octets into a lent buffer, up to the end of the text or the first fault.
#[tactic(auto, using(crate::proofs::HexLaws::hex_steps))]
pub fn read_hex(text: &[u8], buffer: &mut [u8]) -> Row
    ensures { ReadsHex text.now buffer.old buffer.new result }
{
    let mut count = 0;
    let mut half = None;
    for c in text {
        if is_blank(*c) {
            if half.is_some() {
                return Row {
                    count,
                    ends: Ending::Wrong,
                };
            }
        } else {
            let Some(digit) = digit_of(*c) else {
                return Row {
                    count,
                    ends: Ending::Wrong,
                };
            };
            match half {
                None => {
                    half = Some(digit);
                }
                Some(first) => {
                    if buffer.len() <= count {
                        return Row {
                            count,
                            ends: Ending::Long,
                        };
                    }
                    buffer[count] = first * 16 + digit;
                    count += 1;
                    half = None;
                }
            }
        }
    }
    let ends = if half.is_some() {
        Ending::Wrong
    } else {
        Ending::Whole
    };
    Row { count, ends }
}
