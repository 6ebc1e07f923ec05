// Lines at a place of a lent page; each answers the place behind. One that does not apply is left out.
ghost use Rattle.std.specs.Prelude.{◌≡◌, ◌+◌, ◌*◌, ◌≤◌, length};
ghost use Rattle.printing.specs.Lent.{WroteAt};
ghost use Rattle.printing.specs.Lines.{next_text, next_column, folded, when, octets_line, number_line, id_line, problem_line};

use crate::numbers::{put_decimal, put_id, put_pair, put_words};

// One octet more in a line that has so many characters.
fn put_next(page: &mut [u8], at: usize, column: usize, octet: u8) -> usize
    requires { at + 4 ≤ length page.old }
    ensures { WroteAt 4 page.old at (next_text column octet) page.new result }
{
    let place = put_words(page, at, if 37 < column { b"\n " } else { b" " });
    put_pair(page, place, octet)
}

fn next_column(column: usize) -> usize
    ensures { result ≡ next_column column }
{
    if column <= 37 { column + 3 } else { 3 }
}

// Octets behind so many characters of a line, folded at forty.
fn put_folded(page: &mut [u8], at: usize, column: usize, octets: &[u8]) -> usize
    requires { at + 4 * length octets.now ≤ length page.old }
    ensures { WroteAt (4 * length octets.now) page.old at (folded column octets.now) page.new result }
{
    let mut place = at;
    let mut width = column;
    for octet in octets {
        place = put_next(page, place, width, *octet);
        width = next_column(width);
    }
    place
}

// A word and octets.
pub fn octets_line(page: &mut [u8], at: usize, there: bool, word: &[u8], octets: &[u8]) -> usize
    requires { (length word.now ≤ 16) × (at + 4 * length octets.now + 64 ≤ length page.old) }
    ensures { WroteAt (4 * length octets.now + 64) page.old at
        (when there (octets_line word.now octets.now)) page.new result }
{
    if !there {
        return at;
    }
    let behind = put_words(page, at, word);
    let last = put_folded(page, behind, word.len(), octets);
    put_words(page, last, b"\n")
}

// A word and a number.
pub fn number_line(page: &mut [u8], at: usize, there: bool, word: &[u8], n: u64) -> usize
    requires { (length word.now ≤ 16) × (at + 64 ≤ length page.old) }
    ensures { WroteAt 64 page.old at (when there (number_line word.now n)) page.new result }
{
    if !there {
        return at;
    }
    let behind = put_words(page, at, word);
    let place = put_words(page, behind, b" ");
    let end = put_decimal(page, place, n);
    put_words(page, end, b"\n")
}

// A word and an id.
pub fn id_line(page: &mut [u8], at: usize, there: bool, word: &[u8], id: i8) -> usize
    requires { (length word.now ≤ 16) × (at + 64 ≤ length page.old) }
    ensures { WroteAt 64 page.old at (when there (id_line word.now id)) page.new result }
{
    if !there {
        return at;
    }
    let behind = put_words(page, at, word);
    let place = put_words(page, behind, b" ");
    let end = put_id(page, place, id);
    put_words(page, end, b"\n")
}

// A problem's tag, in hex, and its number.
pub fn problem_line(page: &mut [u8], at: usize, there: bool, tag: u8, problem: u8) -> usize
    requires { at + 64 ≤ length page.old }
    ensures { WroteAt 64 page.old at (when there (problem_line tag problem)) page.new result }
{
    if !there {
        return at;
    }
    let behind = put_words(page, at, b"problem ");
    let place = put_pair(page, behind, tag);
    let blank = put_words(page, place, b" ");
    let end = put_decimal(page, blank, problem as u64);
    put_words(page, end, b"\n")
}
