// Lines out of pieces of input.
ghost use Rattle.std.specs.Prelude.{◌≡◌, ◌+◌, ◌≤◌, min, length};
ghost use Rattle.words.specs.Lines.{line_end, piece, with_piece, gathered};

// Where the next line begins, how long this one is by now, and whether it is whole.
#[derive(Clone, Copy)]
pub struct Gathered {
    pub next: usize,
    pub have: usize,
    pub is_whole: bool,
}

// How many octets stand before the end of the line.
fn line_end(s: &[u8]) -> usize
    ensures { result ≡ line_end s.now }
{
    s.iter().take_while(|c| **c != b'\n').count()
}

// Puts what the input has of a line behind what is there of it.
pub fn gather(input: &[u8], from: usize, line: &mut [u8; 16384], have: usize) -> Gathered
    requires { (from ≤ length input.now) × (have ≤ 16385) }
    ensures gathered { result ≡ gathered input.now from have }
    ensures line { line.new ≡ with_piece line.old have (piece input.now from) }
    ensures within { (result.next ≤ length input.now) × (result.have ≤ 16385) }
{
    let end = from + line_end(&input[from..]);
    let more = octets::part(input, from, end);
    let is_whole = end < input.len();
    let next = if is_whole { end + 1 } else { end };
    if 16384 < have + more.len() {
        return Gathered {
            next,
            have: 16385,
            is_whole,
        };
    }
    octets::put(line, have, more);
    Gathered {
        next,
        have: have + more.len(),
        is_whole,
    }
}

// One line more. A count that can't go on stays.
pub fn counted(number: u64) -> u64
    ensures { result ≡ min (number + 1) 18446744073709551615 }
{
    number.saturating_add(1)
}
