// Records as lines on standard input, the trace file on standard output. A bad record ends it.
#![tactic(auto)]

ghost use Rattle.std.specs.Prelude.{◌≤◌, IfOk};
ghost use Rattle.trace_lines.specs.Desk.{Ready};

use printing::page::Page;
use std::io;
use std::io::{Print, Read};
use streams::{give, input_failed};
use trace_lines::book::{Book, Turn, finish, take_line};
use trace_lines::shown::print_refused;
use words::lines::{counted, gather};

// The line that is read, the octets of the record that is begun, the block that is held, and one that is handed over.
#[derive(Drop)]
struct Room {
    line: [u8; 16384],
    message: [u8; 255],
    held: [u8; 512],
    full: [u8; 512],
}

// So much of a line is there, so many lines were before it; and the writer behind them.
#[derive(Clone, Copy)]
struct Desk {
    have: usize,
    number: u64,
    turn: Turn,
}

// Whether more is to be read: no record was bad.
fn is_going(desk: Desk) -> bool {
    desk.turn.book.refused.is_none()
}

// Writes a block, if there is one.
fn hand_over(
    output: &impl Print,
    errors: &impl Print,
    block: &[u8; 512],
    is_there: bool,
) -> io::Result<()> {
    if is_there {
        give(output, errors, block)?;
    }
    Ok(())
}

// Takes the line that is there.
fn take(output: &impl Print, errors: &impl Print, room: &mut Room, desk: Desk) -> io::Result<Desk>
    requires { Ready desk.turn.pen }
    ensures { IfOk result (λ next. (next.have ≤ 16385) × Ready next.turn.pen) }
{
    let number = counted(desk.number);
    let turn = take_line(
        octets::part(&room.line, 0, desk.have),
        16384 < desk.have,
        number,
        &mut room.message,
        &mut room.held,
        &mut room.full,
        desk.turn,
    );
    hand_over(output, errors, &room.full, turn.book.is_full)?;
    Ok(Desk {
        have: 0,
        number,
        turn,
    })
}

// Takes each line that ends in a piece of the input; what is left of it is the start of the next line.
fn serve(
    output: &impl Print,
    errors: &impl Print,
    input: &[u8],
    room: &mut Room,
    desk: Desk,
) -> io::Result<Desk>
    requires { (desk.have ≤ 16385) × Ready desk.turn.pen }
    ensures { IfOk result (λ next. (next.have ≤ 16385) × Ready next.turn.pen) }
{
    let mut state = desk;
    let mut rest = input;
    while !rest.is_empty() {
        let more = gather(rest, 0, &mut room.line, state.have);
        rest = &rest[more.next..];
        state.have = more.have;
        if more.is_whole {
            state = take(output, errors, room, state)?;
            if !is_going(state) {
                break;
            }
        }
    }
    Ok(state)
}

// The last line may lack its line feed.
fn last_line(
    output: &impl Print,
    errors: &impl Print,
    room: &mut Room,
    desk: Desk,
) -> io::Result<Desk>
    requires { Ready desk.turn.pen }
    ensures { IfOk result (λ next. Ready next.turn.pen) }
{
    if is_going(desk) & (desk.have > 0) {
        return take(output, errors, room, desk);
    }
    Ok(desk)
}

// The record that is begun where the input ends.
fn close(output: &impl Print, errors: &impl Print, room: &mut Room, desk: Desk) -> io::Result<Book>
    requires { Ready desk.turn.pen }
{
    let turn = desk.turn;
    if !is_going(desk) {
        return Ok(turn.book);
    }
    let book = finish(
        turn.pen,
        &room.message,
        &mut room.held,
        &mut room.full,
        turn.book,
    );
    hand_over(output, errors, &room.full, book.is_full)?;
    Ok(book)
}

// The block that is held, and the line on which a bad record begins.
fn end(output: &impl Print, errors: &impl Print, held: &[u8; 512], book: Book) -> io::Result<()> {
    hand_over(output, errors, held, book.is_open)?;
    if let Some(line) = book.refused {
        let mut page = Page::new();
        print_refused(&mut page, line);
        give(errors, errors, page.text())?;
    }
    Ok(())
}

fn begun() -> Desk
    ensures { (result.have ≤ 16385) × Ready result.turn.pen }
{
    Desk {
        have: 0,
        number: 0,
        turn: Turn {
            pen: None,
            book: Book {
                is_open: false,
                number: 0,
                is_full: false,
                refused: None,
            },
        },
    }
}

// Reads all of the input. A proved loop has to end, and nothing says that the input does: so the turns are counted, to a
// number that no run reaches.
fn read_all(
    input: &mut impl Read,
    output: &impl Print,
    errors: &impl Print,
    room: &mut Room,
) -> io::Result<Desk>
    ensures { IfOk result (λ desk. Ready desk.turn.pen) }
{
    let mut piece = [0u8; 4096];
    let mut state = begun();
    for _ in 0..u64::MAX {
        let read = input.read(&mut piece);
        if read.is_err() {
            input_failed(errors);
        }
        let n = read?;
        if n == 0 {
            break;
        }
        state = serve(output, errors, &piece[..n], room, state)?;
        if !is_going(state) {
            break;
        }
    }
    Ok(state)
}

fn run(
    input: &mut impl Read,
    output: &impl Print,
    errors: &impl Print,
    room: &mut Room,
) -> io::Result<()> {
    let read = read_all(input, output, errors, room)?;
    let last = last_line(output, errors, room, read)?;
    let book = close(output, errors, room, last)?;
    end(output, errors, &room.held, book)
}

// What fails is said where it fails.
fn main(rt: HostRuntime) {
    let mut input = rt.stdin();
    let output = rt.stdout();
    let errors = rt.stderr();
    let mut room = Room {
        line: [0; 16384],
        message: [0; 255],
        held: [0; 512],
        full: [0; 512],
    };
    let _ = run(&mut input, &output, &errors, &mut room);
}
