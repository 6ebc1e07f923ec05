// Each line's answer.
ghost use Rattle.std.specs.Prelude.{◌≡◌, ◌≤◌, ◌++◌, length, take};
ghost use Rattle.printing.specs.Page.{Filled};
ghost use Rattle.printing.specs.Numbers.{decimal};
ghost use Rattle.reports.specs.Words.{line_word};
ghost use Rattle.answers.specs.Answers.{State, starting, not_understood, too_long, made, call, image, asks_of, on_octets, by_asks, answer, answer_line, bench_state, InRoom, Makes, AnswersLine, AnswersLent};

use printing::page::Page;
use reports::shown::{print_called, print_received};
use reports::slots::print_batched;
use std::marker::Model;
use words::{Command, Ending, NotUnderstood};

// A page that has room for every answer.
pub type Answer = Page<70000>;

// What a command asks for; octets in hex begin at a place of the line.
#[derive(Clone, Copy)]
pub enum Asks {
    Room(usize),
    Image(usize),
    Call(usize),
}

// What goes on from line to line: the table's image, at the front of its space, and how long the reply buffer is.
#[derive(Drop)]
pub struct Session {
    space: [u8; 300],
    size: usize,
    room: usize,
}

// Clauses see the image and the room.
impl Model for Session {
    ghost Value = { State };

    ghost view = { λ h. record { table = take h.size h.space; room = h.room } };

    ghost invariant = { λ h. (h.size ≤ 300) × (h.room ≤ 300) };
}

// How long the image is and the reply buffer, for who lends the image's space and the page; and how much of the page is
// written.
#[derive(Clone, Copy)]
pub struct Held {
    pub size: usize,
    pub room: usize,
    pub written: usize,
}

fn asks_of(end: usize, command: Command) -> Asks
    ensures { result ≡ asks_of end command }
{
    match command {
        Command::Buffer(n) => Asks::Room(n),
        Command::Table { at } => Asks::Image(at),
        Command::Release { .. } => Asks::Call(end),
        Command::Receive { at }
        | Command::Begin { at, .. }
        | Command::Invoke { at, .. }
        | Command::Result { at, .. }
        | Command::Error { at, .. }
        | Command::Batch { at } => Asks::Call(at),
    }
}

// A line's number, with words behind it.
fn line_is(page: &mut Answer, number: u64, words: &[u8])
    requires { length words.now ≤ 32 }
    ensures { Filled 64 (line_word ++ decimal number ++ words.now) page.new }
{
    page.clear();
    page.words(b"line ");
    page.decimal(number);
    page.words(words);
}

// The answer to a line that is no command, or whose octets are no hex.
#[tactic(auto, unfolding(crate::specs::Answers::not_understood))]
fn not_understood(page: &mut Answer, number: u64)
    ensures { Filled 64 (not_understood number) page.new }
{
    line_is(page, number, b" not understood\n\n");
}

#[tactic(auto, unfolding(crate::specs::Answers::too_long))]
fn too_long(page: &mut Answer, number: u64)
    ensures { Filled 64 (too_long number) page.new }
{
    line_is(page, number, b" too long\n\n");
}

// Makes a command's call, over a table and a cleared buffer.
#[tactic(auto, unfolding(crate::specs::Answers::made))]
fn make(table: &mut [u8], buffer: &mut [u8], octets: &[u8], command: Command, page: &mut Answer)
    requires { (length octets.now ≤ 4096) × (length buffer.old ≤ 300) }
    ensures { Makes (made table.old buffer.old octets.now command) table.new page.new }
{
    match command {
        Command::Receive { .. } => {
            let received = telephone::receive::smr_receive(table, octets, buffer);
            print_received(page, octets, buffer, received);
        }
        Command::Begin { operation, id, .. } => {
            let called = telephone::calls::smr_begin(table, operation, id, octets, buffer);
            print_called(page, true, buffer, called);
        }
        Command::Invoke {
            flag,
            value,
            operation,
            id,
            ..
        } => {
            let called = telephone::calls::smr_invoke(
                table, flag, value, operation, id, octets, buffer,
            );
            print_called(page, false, buffer, called);
        }
        Command::Result {
            flag,
            value,
            id,
            ..
        } => {
            let called = telephone::calls::smr_result(table, flag, value, id, octets, buffer);
            print_called(page, false, buffer, called);
        }
        Command::Error {
            flag,
            value,
            id,
            code,
            ..
        } => {
            let called = telephone::calls::smr_error(table, flag, value, id, code, octets, buffer);
            print_called(page, false, buffer, called);
        }
        Command::Release { flag, value } => {
            let called = telephone::calls::smr_release(table, flag, value, buffer);
            print_called(page, false, buffer, called);
        }
        Command::Batch { .. } => {
            let batched = telephone::batch::smr_batch(table, octets, buffer);
            print_batched(page, buffer, batched);
        }
        Command::Table { .. } | Command::Buffer(_) => page.clear(),
    }
}

impl Session {
    // A table all zero, and a reply buffer, of so many octets.
    pub fn new(size: usize, room: usize) -> Self
        requires { (size ≤ 300) × (room ≤ 300) }
        ensures { result ≡ starting size room }
    {
        Session::holding(&[0; 300][..size], room)
    }

    // An image, and a reply buffer of so many octets.
    fn holding(image: &[u8], room: usize) -> Self
        requires { (length image.now ≤ 300) × (room ≤ 300) }
        ensures { result ≡ record { table = image.now; room = room } }
    {
        let mut space = [0u8; 300];
        octets::put(&mut space, 0, image);
        Session {
            space,
            size: image.len(),
            room,
        }
    }

    fn image(&self) -> &[u8]
        ensures image { result.now ≡ self.now.table }
        ensures within { length result.now ≤ 300 }
    {
        &self.space[..self.size]
    }

    // Prints the image, or sets it.
    #[tactic(auto, unfolding(crate::specs::Answers::image))]
    fn on_image(&mut self, octets: &[u8], number: u64, page: &mut Answer)
        ensures { AnswersLine (image number self.old octets.now) self.new page.new }
    {
        if octets.is_empty() {
            page.clear();
            page.octets_line(b"table", self.image());
            page.words(b"\n");
        } else if octets.len() <= 300 {
            octets::put(&mut self.space, 0, octets);
            self.size = octets.len();
            page.clear();
            page.words(b"table set\n\n");
        } else {
            not_understood(page, number);
        }
    }

    // Makes a call over the image, with a cleared buffer.
    fn on_call(&mut self, octets: &[u8], command: Command, page: &mut Answer)
        requires { length octets.now ≤ 4096 }
        ensures { AnswersLine (call command self.old octets.now) self.new page.new }
    {
        let mut buffer = [0u8; 300];
        let buffer = &mut buffer[..self.room];
        let table = &mut self.space[..self.size];
        make(table, buffer, octets, command, page);
    }

    // The image or a call, as a flag says in the definition too, with the octets of the line from a place on.
    #[tactic(auto, unfolding(crate::specs::Answers::on_octets))]
    fn on_octets(
        &mut self,
        line: &[u8],
        at: usize,
        is_image: bool,
        command: Command,
        number: u64,
        page: &mut Answer,
    )
        ensures { AnswersLine (on_octets number line.now at is_image command self.old) self.new page.new }
    {
        let mut space = [0u8; 4096];
        let row = words::hex::read_hex(octets::part(line, at, line.len()), &mut space);
        let octets = &space[..row.count];
        match row.ends {
            Ending::Wrong => not_understood(page, number),
            Ending::Long => too_long(page, number),
            Ending::Whole => {
                if is_image {
                    self.on_image(octets, number, page);
                } else {
                    self.on_call(octets, command, page);
                }
            }
        }
    }

    // A command's answer.
    #[tactic(auto, unfolding(crate::specs::Answers::by_asks))]
    fn on_command(&mut self, line: &[u8], command: Command, number: u64, page: &mut Answer)
        requires { InRoom (asks_of (length line.now) command) }
        ensures { AnswersLine (by_asks number line.now command self.old (asks_of (length line.now) command)) self.new page.new }
    {
        match asks_of(line.len(), command) {
            Asks::Room(n) => {
                self.room = n;
                page.clear();
                page.number_line(b"buffer", n as u64);
                page.words(b"\n");
            }
            Asks::Image(at) => self.on_octets(line, at, true, command, number, page),
            Asks::Call(at) => self.on_octets(line, at, false, command, number, page),
        }
    }

    // A line's answer.
    #[tactic(auto, unfolding(crate::specs::Answers::answer, crate::specs::Answers::by_command), using(crate::proofs::RoomLaws::in_room))]
    fn answer(&mut self, line: &[u8], number: u64, page: &mut Answer)
        ensures { AnswersLine (answer number line.now self.old) self.new page.new }
    {
        match words::commands::command(line) {
            Ok(Some(command)) => self.on_command(line, command, number, page),
            Ok(None) => page.clear(),
            Err(NotUnderstood) => not_understood(page, number),
        }
    }

    // The answer to a line as it was gathered, with so many octets of it.
    #[tactic(auto, unfolding(crate::specs::Answers::answer_line))]
    pub fn answer_line(&mut self, line: &[u8], have: usize, number: u64, page: &mut Answer)
        requires { length line.now ≡ 16384 }
        ensures { AnswersLine (answer_line number line.now have self.old) self.new page.new }
    {
        if 16384 < have {
            too_long(page, number);
        } else {
            self.answer(&line[..have], number, page);
        }
    }
}

// The same over what is lent: the image stands at the front of its space, and the text comes to the start of the page.
pub fn answer_line(
    line: &[u8],
    have: usize,
    number: u64,
    space: &mut [u8],
    held: Held,
    page: &mut [u8],
) -> Held
    requires { (length line.now ≡ 16384) × ((length space.old ≡ 300) × ((held.size ≤ 300) × ((held.room ≤ 300) × (70000 ≤ length page.old)))) }
    ensures { AnswersLent (answer_line number line.now have (bench_state space.old held))
        space.old space.new page.old page.new result }
{
    let mut session = Session::holding(&space[..held.size], held.room);
    let mut answer = Answer::new();
    session.answer_line(line, have, number, &mut answer);
    octets::put(space, 0, session.image());
    octets::put(page, 0, answer.text());
    Held {
        size: session.image().len(),
        room: session.room,
        written: answer.text().len(),
    }
}
