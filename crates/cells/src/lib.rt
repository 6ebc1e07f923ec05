// A USSD string as text on forty cells: septets, characters, lines.
#![tactic(auto)]

mod alphabet;
mod rows;
mod septets;

ghost use Rattle.std.specs.Prelude.{◌≡◌, [], ◌∷◌, true, false, cond, ◌+◌, ◌*◌, ◌≤◌, ◌<◌, length};
ghost use Rattle.cells.specs.Alphabet.{made_by};
ghost use Rattle.cells.specs.Characters.{string_text};
ghost use Rattle.cells.specs.Lines.{lines_of, line_octets};
ghost use Rattle.cells.specs.Rows.{ended_by, put_if, GiveRoom, GiveBounds, walked, text_with, lines_with};
ghost use Rattle.cells.specs.Cells.{extent_of, refused_laid, cells};

use crate::alphabet::made_by;
use crate::rows::{Line, Row, grow, left_of, line_of};
use crate::septets::{bits_at, septets_sent};

// The refusal, or 0; how many characters and lines are written.
#[repr(C)]
#[derive(Clone, Copy)]
pub struct Laid {
    pub code: u8,
    pub characters: usize,
    pub lines: usize,
}

// How many characters and lines a string has.
#[derive(Clone, Copy)]
pub struct Extent {
    pub characters: usize,
    pub lines: usize,
}

// A character at a place of the text, if anything is written.
fn put_character(text: &mut [u16], at: usize, character: u16, writes: bool)
    requires { writes ≡ true → at < length text.old }
    ensures { text.new ≡ put_if writes text.old at (character ∷ []) }
{
    if writes {
        text[at] = character;
    }
}

// A line behind so many lines, if anything is written.
fn put_line(lines: &mut [u8], count: usize, line: Line, writes: bool)
    requires { writes ≡ true → 2 * count + 2 ≤ length lines.old }
    ensures { lines.new ≡ put_if writes lines.old (2 * count) (line_octets (line ∷ [])) }
{
    if writes {
        lines[2 * count] = line.cells;
        lines[2 * count + 1] = line.dropped;
    }
}

// The line that ends with a row's last character, if one does; how many lines there are then.
fn end_line(lines: &mut [u8], count: usize, row: Row, writes: bool) -> usize
    requires { (writes ≡ true → 2 * count + length (line_octets (ended_by row)) ≤ length lines.old) × (count + 1 < 18446744073709551616) }
    ensures lines { lines.new ≡ put_if writes lines.old (2 * count) (line_octets (ended_by row)) }
    ensures count { result ≡ count + length (ended_by row) }
{
    if row.width <= 40 {
        return count;
    }
    put_line(lines, count, line_of(row), writes);
    count + 1
}

// Where the walk is: the line that has begun, the characters and the lines before.
#[derive(Clone, Copy)]
pub struct Walk {
    pub row: Row,
    pub characters: usize,
    pub ended: usize,
}

// One character more.
fn give(text: &mut [u16], lines: &mut [u8], walk: Walk, code: u16, writes: bool) -> Walk
    requires room { writes ≡ true → GiveRoom text.old lines.old walk code }
    requires bounds { GiveBounds walk }
    ensures walk { result ≡ walked walk code }
    ensures text { text.new ≡ text_with writes text.old walk code }
    ensures lines { lines.new ≡ lines_with writes lines.old walk code }
{
    put_character(text, walk.characters, code, writes);
    let over = grow(walk.row, code);
    let ended = end_line(lines, walk.ended, over, writes);
    Walk {
        row: left_of(over),
        characters: walk.characters + 1,
        ended,
    }
}

// One septet more: the character that it makes, unless it is an escape that waits for the next septet.
fn turn(
    text: &mut [u16],
    lines: &mut [u8],
    walk: Walk,
    escaped: bool,
    septet: u8,
    waits: bool,
    writes: bool,
) -> Walk
    requires room { waits ≡ false → writes ≡ true → GiveRoom text.old lines.old walk (made_by escaped septet) }
    requires bounds { (septet < 128) × GiveBounds walk }
    ensures walk { result ≡ cond waits walk (walked walk (made_by escaped septet)) }
    ensures text { text.new ≡ cond waits text.old (text_with writes text.old walk (made_by escaped septet)) }
    ensures lines { lines.new ≡ cond waits lines.old (lines_with writes lines.old walk (made_by escaped septet)) }
{
    if waits {
        return walk;
    }
    give(text, lines, walk, made_by(escaped, septet), writes)
}

// Goes through the septets of a string once: how many characters they are, and how many lines; and writes both, if it is to.
// One walk for both turns, told by a flag, so that it stands in the archive once.
fn lay(string: &[u8], text: &mut [u16], lines: &mut [u8], writes: bool) -> Extent
    requires { writes ≡ true → (length (string_text string.now) ≤ length text.old) × (2 * length (lines_of (string_text string.now)) ≤ length lines.old) }
    ensures extent { result ≡ extent_of string.now }
    ensures text { text.new ≡ put_if writes text.old 0 (string_text string.now) }
    ensures lines { lines.new ≡ put_if writes lines.old 0 (line_octets (lines_of (string_text string.now))) }
{
    let count = septets_sent(string);
    let mut walk = Walk {
        row: Row { width: 0, kept: 0 },
        characters: 0,
        ended: 0,
    };
    let mut carried = 0;
    let mut escaped = false;
    for at in 0..count {
        let bits = bits_at(string, at, carried);
        let septet = (bits % 128) as u8;
        carried = bits / 128;
        let waits = !escaped & (septet == 0x1B) & (at + 1 < count);
        walk = turn(text, lines, walk, escaped, septet, waits, writes);
        escaped = waits;
    }
    let last = Line {
        cells: walk.row.width,
        dropped: 0,
    };
    put_line(lines, walk.ended, last, writes);
    Extent {
        characters: walk.characters,
        lines: walk.ended + 1,
    }
}

// A refused call writes nothing.
fn refused(code: u8) -> Laid
    ensures { result ≡ refused_laid code }
{
    Laid {
        code,
        characters: 0,
        lines: 0,
    }
}

// A string of any length and content: its text and its lines, if there is room for both.
pub fn smr_cells(scheme: u8, string: &[u8], text: &mut [u16], lines: &mut [u8]) -> Laid
    ensures returned { result ≡ (cells scheme string.now text.old lines.old).laid }
    ensures text { text.new ≡ (cells scheme string.now text.old lines.old).text }
    ensures lines { lines.new ≡ (cells scheme string.now text.old lines.old).lines }
{
    if scheme != 0x0F {
        return refused(40);
    }
    let extent = lay(string, text, lines, false);
    if text.len() < extent.characters {
        return refused(41);
    }
    if lines.len() / 2 < extent.lines {
        return refused(41);
    }
    lay(string, text, lines, true);
    Laid {
        code: 0,
        characters: extent.characters,
        lines: extent.lines,
    }
}
