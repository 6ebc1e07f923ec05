// The record that ends with a line, written behind those of the block that is held.
ghost use Rattle.std.specs.Prelude.{◌≡◌, ◌≤◌, length};
ghost use Rattle.trace_lines.specs.Told.{kind_if};
ghost use Rattle.trace_lines.specs.Desk.{Ready, Lined, NextLined, count_of, pen_if, refused_with, Turns, pen_seen, turn_seen};
ghost use Rattle.trace_lines.specs.Book.{book_after, held_after, full_after, settled, next_by, book_by};

use crate::told::{Pen, follow, is_ending, kind_of};
use trace::writing::write_record;

// Whether the block that is held has a record, and its number, which it has before the first record too; whether one was handed
// over, and the line that is refused.
#[derive(Clone, Copy)]
pub struct Book {
    pub is_open: bool,
    pub number: u32,
    pub is_full: bool,
    pub refused: Option<u64>,
}

pub fn finish(
    pen: Option<Pen>,
    message: &[u8],
    held: &mut [u8; 512],
    full: &mut [u8; 512],
    book: Book,
) -> Book
    requires { count_of pen ≤ length message.now }
    ensures book { result ≡ book_after (pen_seen pen message.now) held.old book }
    ensures held { held.new ≡ held_after (pen_seen pen message.now) held.old book.number }
    ensures full { full.new ≡ full_after (pen_seen pen message.now) held.old full.old }
{
    let Some(pen) = pen else {
        return Book {
            is_full: false,
            refused: None,
            ..book
        };
    };
    let Ok(wrote) = write_record(
        held,
        full,
        book.number,
        pen.direction,
        &message[..pen.count],
    ) else {
        return Book {
            is_full: false,
            refused: Some(pen.line),
            ..book
        };
    };
    Book {
        is_open: true,
        number: wrote.number,
        is_full: wrote.is_full,
        refused: None,
    }
}

// The record that is begun behind a line, and the book.
#[derive(Clone, Copy)]
pub struct Turn {
    pub pen: Option<Pen>,
    pub book: Book,
}

// The record that is begun, where a test holds; else none.
fn pen_if(pen: Option<Pen>, there: bool) -> Option<Pen>
    ensures { result ≡ pen_if there pen }
{
    if there { pen } else { None }
}

// A line that is refused: no record is begun behind it.
fn refuse(line: u64, book: Book) -> Turn
    ensures { result ≡ refused_with line book }
{
    Turn {
        pen: None,
        book: Book {
            refused: Some(line),
            ..book
        },
    }
}

// Line n: the record that it ends is written, and the one that is begun goes on or another begins.
pub fn take_line(
    line: &[u8],
    long: bool,
    n: u64,
    message: &mut [u8],
    held: &mut [u8; 512],
    full: &mut [u8; 512],
    turn: Turn,
) -> Turn
    requires { Ready turn.pen × (length message.old ≡ 255) }
    ensures next { Turns (next_by (kind_if long line.now) line.now n (pen_seen turn.pen message.old) held.old turn.book) message.new result }
    ensures lined { 1 ≤ n → Lined (pen_seen turn.pen message.old) → NextLined (turn_seen result message.new) }
    ensures book { result.book ≡ book_by (kind_if long line.now) line.now n (pen_seen turn.pen message.old) held.old turn.book }
    ensures held { held.new ≡ held_after (settled (kind_if long line.now) (pen_seen turn.pen message.old)) held.old turn.book.number }
    ensures full { full.new ≡ full_after (settled (kind_if long line.now) (pen_seen turn.pen message.old)) held.old full.old }
{
    let kind = kind_of(line, long);
    let ended = is_ending(kind);
    let book = finish(pen_if(turn.pen, ended), message, held, full, turn.book);
    if let Some(refused) = book.refused {
        return refuse(refused, book);
    }
    match follow(kind, line, n, message, turn.pen) {
        Ok(pen) => Turn { pen, book },
        Err(refused) => refuse(refused, book),
    }
}
