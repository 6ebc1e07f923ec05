// Decimal numbers and ids.
ghost use Rattle.std.specs.Prelude.{◌≡◌};
ghost use Rattle.words.specs.Numbers.{digit, ReadsNumber, ReadsSigned, octet_at, id_at};

use crate::At;
use crate::text::word_at;

fn is_digit(c: u8) -> bool
    ensures { result ≡ digit c }
{
    c.is_ascii_digit()
}

// A number of at most `most`: digits alone, at least one.
#[tactic(auto, using(crate::proofs::NumberLaws::number_steps))]
pub fn number(word: &[u8], most: u16) -> Option<usize>
    ensures { ReadsNumber most word.now result }
{
    if word.is_empty() {
        return None;
    }
    let mut n = 0;
    for c in word {
        if !is_digit(*c) {
            return None;
        }
        n = n * 10 + (*c - 48) as usize;
        if usize::from(most) < n {
            return None;
        }
    }
    Some(n)
}

// A number of -128 to 127, as the octet that says it.
#[tactic(auto, using(crate::proofs::NumberLaws::signed_steps))]
fn signed(word: &[u8]) -> Option<usize>
    ensures { ReadsSigned word.now result }
{
    if word.is_empty() || word[0] != b'-' {
        return number(word, 127);
    }
    let n = number(&word[1..], 128)?;
    Some((256 - n) % 256)
}

// The next word from a place on, as a number of 0 to 255.
#[tactic(auto, unfolding(crate::specs::Numbers::octet_at))]
pub fn octet_at(s: &[u8], at: usize) -> Option<At<u8>>
    ensures { result ≡ octet_at s.now at }
{
    let word = word_at(s, at);
    let n = number(octets::part(s, word.start, word.end), 255)?;
    Some(At {
        value: n as u8,
        next: word.end,
    })
}

// The next word from a place on, as an id.
#[tactic(auto, unfolding(crate::specs::Numbers::id_at))]
pub fn id_at(s: &[u8], at: usize) -> Option<At<i8>>
    ensures { result ≡ id_at s.now at }
{
    let word = word_at(s, at);
    let n = signed(octets::part(s, word.start, word.end))?;
    Some(At {
        value: codes::ids::id_of(n as u8),
        next: word.end,
    })
}
