// Lines of text, a character for each cell, at a place of a lent page; each answers the place behind.
ghost use Rattle.std.specs.Prelude.{◌≡◌, ◌+◌, ◌*◌, ◌≤◌, length};
ghost use Rattle.printing.specs.Lent.{WroteAt};
ghost use Rattle.printing.specs.Utf8.{pictured, utf8, cell_text, row_text, text_rows};

use crate::numbers::put_words;

// What is printed for a character: one that would break a line has a picture.
#[tactic(auto, unfolding(crate::specs::Utf8::pictured))]
fn picture_of(character: u16) -> u16
    ensures { result ≡ pictured character }
{
    match character {
        0x0A => 0x240A,
        0x0C => 0x240C,
        0x0D => 0x240D,
        _ => character,
    }
}

// One character as it is printed, in UTF-8.
#[tactic(auto, unfolding(crate::specs::Utf8::utf8))]
fn put_character(page: &mut [u8], at: usize, character: u16) -> usize
    requires { at + 3 ≤ length page.old }
    ensures { WroteAt 3 page.old at (utf8 (pictured character)) page.new result }
{
    let c = picture_of(character);
    if c < 0x80 {
        put_words(page, at, &[c as u8])
    } else if c < 0x800 {
        put_words(page, at, &[(0xC0 + c / 64) as u8, (0x80 + c % 64) as u8])
    } else {
        put_words(
            page,
            at,
            &[
                (0xE0 + c / 4096) as u8,
                (0x80 + c / 64 % 64) as u8,
                (0x80 + c % 64) as u8,
            ],
        )
    }
}

// Characters in a row.
fn put_cells(page: &mut [u8], at: usize, characters: &[u16]) -> usize
    requires { at + 3 * length characters.now ≤ length page.old }
    ensures { WroteAt (3 * length characters.now) page.old at (cell_text characters.now) page.new result }
{
    let mut place = at;
    for character in characters {
        place = put_character(page, place, *character);
    }
    place
}

// One line: its characters, and the line's end.
fn put_row(page: &mut [u8], at: usize, characters: &[u16]) -> usize
    requires { at + 3 * length characters.now + 1 ≤ length page.old }
    ensures { WroteAt (3 * length characters.now + 1) page.old at (row_text characters.now) page.new result }
{
    let behind = put_cells(page, at, characters);
    put_words(page, behind, b"\n")
}

// A text line by line. Two octets tell a line: its cells, and the space that was dropped behind it.
pub fn text_rows(page: &mut [u8], at: usize, text: &[u16], rows: &[u8]) -> usize
    requires { at + 3 * length text.now + length rows.now ≤ length page.old }
    ensures { WroteAt (3 * length text.now + length rows.now) page.old at
        (text_rows text.now rows.now) page.new result }
{
    let mut place = at;
    let mut text = text;
    let mut rows = rows;
    while let [cells, dropped, rest @ ..] = rows {
        let to = (*cells as usize).min(text.len());
        let next = (*cells as usize + *dropped as usize).min(text.len());
        place = put_row(page, place, &text[..to]);
        text = &text[next..];
        rows = rest;
    }
    place
}
