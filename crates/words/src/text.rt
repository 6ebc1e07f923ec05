// Words, with blanks between them.
ghost use Rattle.std.specs.Prelude.{◌≡◌};
ghost use Rattle.words.specs.Words.{blank, blanks, letters, word_at, same};

use octets::Span;

pub fn is_blank(c: u8) -> bool
    ensures { result ≡ blank c }
{
    matches!(c, b' ' | b'\t' | b'\r')
}

// How many blanks a row of octets starts with.
fn blanks(s: &[u8]) -> usize
    ensures { result ≡ blanks s.now }
{
    s.iter().take_while(|c| is_blank(**c)).count()
}

// How many octets stand before the first blank.
fn letters(s: &[u8]) -> usize
    ensures { result ≡ letters s.now }
{
    s.iter().take_while(|c| !is_blank(**c)).count()
}

// The next word from a place on; empty where none is left.
pub fn word_at(s: &[u8], at: usize) -> Span
    ensures { result ≡ word_at s.now at }
{
    let start = at + blanks(octets::part(s, at, s.len()));
    let end = start + letters(octets::part(s, start, s.len()));
    Span { start, end }
}

// `==` by itself takes no byte string beside a slice, since their types differ.
#[tactic(auto, using(crate::proofs::WordLaws::same_eq))]
pub fn is_same(s: &[u8], t: &[u8]) -> bool
    ensures { result ≡ same s.now t.now }
{
    s == t
}
