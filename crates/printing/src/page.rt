// A page of its own: text put together piece by piece, each by the function over a lent page.
ghost use Rattle.std.specs.Prelude.{◌≡◌, ℕ, ◌+◌, ◌*◌, ◌≤◌, List, [], length, take};
ghost use Rattle.printing.specs.Page.{WroteWithin};
ghost use Rattle.printing.specs.Numbers.{decimal, id_text, pair};
ghost use Rattle.printing.specs.Lines.{octets_line, number_line, id_line, problem_line};
ghost use Rattle.printing.specs.Utf8.{text_rows};

use crate::{lines, numbers, text};
use std::marker::Model;

// Room for so many octets, and how many of them are written.
#[derive(Drop)]
pub struct Page<const N: usize> {
    octets: [u8; N],
    at: usize,
}

// Clauses see the text that is written.
impl<const N: usize> Model for Page<N> {
    ghost Value = { List ℕ };

    ghost view = { λ p. take p.at p.octets };

    ghost invariant = { λ p. p.at ≤ N };
}

impl<const N: usize> Page<N> {
    pub fn new() -> Self
        ensures { result ≡ [] }
    {
        Page {
            octets: [0; N],
            at: 0,
        }
    }

    // What is written.
    pub fn text(&self) -> &[u8]
        ensures { result.now ≡ self.now }
    {
        &self.octets[..self.at]
    }

    // The page is begun anew.
    pub fn clear(&mut self)
        ensures { self.new ≡ [] }
    {
        self.at = 0;
    }

    // Words behind what is written.
    pub fn words(&mut self, words: &[u8])
        requires { length self.old + length words.now ≤ N }
        ensures { WroteWithin (length words.now) self.old words.now self.new }
    {
        self.at = numbers::put_words(&mut self.octets, self.at, words);
    }

    pub fn decimal(&mut self, n: u64)
        requires { length self.old + 20 ≤ N }
        ensures { WroteWithin 20 self.old (decimal n) self.new }
    {
        self.at = numbers::put_decimal(&mut self.octets, self.at, n);
    }

    pub fn id(&mut self, id: i8)
        requires { length self.old + 21 ≤ N }
        ensures { WroteWithin 21 self.old (id_text id) self.new }
    {
        self.at = numbers::put_id(&mut self.octets, self.at, id);
    }

    // An octet as two capital hex digits.
    pub fn pair(&mut self, octet: u8)
        requires { length self.old + 2 ≤ N }
        ensures { WroteWithin 2 self.old (pair octet) self.new }
    {
        self.at = numbers::put_pair(&mut self.octets, self.at, octet);
    }

    // A word and octets.
    pub fn octets_line(&mut self, word: &[u8], octets: &[u8])
        requires { (length word.now ≤ 16) × (length self.old + 4 * length octets.now + 64 ≤ N) }
        ensures { WroteWithin (4 * length octets.now + 64) self.old (octets_line word.now octets.now) self.new }
    {
        self.at = lines::octets_line(&mut self.octets, self.at, true, word, octets);
    }

    // A word and a number.
    pub fn number_line(&mut self, word: &[u8], n: u64)
        requires { (length word.now ≤ 16) × (length self.old + 64 ≤ N) }
        ensures { WroteWithin 64 self.old (number_line word.now n) self.new }
    {
        self.at = lines::number_line(&mut self.octets, self.at, true, word, n);
    }

    // A word and an id.
    pub fn id_line(&mut self, word: &[u8], id: i8)
        requires { (length word.now ≤ 16) × (length self.old + 64 ≤ N) }
        ensures { WroteWithin 64 self.old (id_line word.now id) self.new }
    {
        self.at = lines::id_line(&mut self.octets, self.at, true, word, id);
    }

    // A problem's tag, in hex, and its number.
    pub fn problem_line(&mut self, tag: u8, problem: u8)
        requires { length self.old + 64 ≤ N }
        ensures { WroteWithin 64 self.old (problem_line tag problem) self.new }
    {
        self.at = lines::problem_line(&mut self.octets, self.at, true, tag, problem);
    }

    // A text line by line. Two octets tell a line: its cells, and the space that was dropped behind it.
    pub fn text_rows(&mut self, text: &[u16], rows: &[u8])
        requires { length self.old + 3 * length text.now + length rows.now ≤ N }
        ensures { WroteWithin (3 * length text.now + length rows.now) self.old
            (text_rows text.now rows.now) self.new }
    {
        self.at = text::text_rows(&mut self.octets, self.at, text, rows);
    }
}
