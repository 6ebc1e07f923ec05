// A line of the bench: its words, its numbers, its octets, and the command that it is.
#![tactic(auto)]

pub mod commands;
pub mod hex;
pub mod lines;
pub mod numbers;
pub mod text;

// A number or an id that a word says, and the place behind it.
#[derive(Clone, Copy)]
pub struct At<T> {
    pub value: T,
    pub next: usize,
}

// How a row of octets in hex ends: at the end of the line, at what is no hex, or where no room is left.
#[derive(Clone, Copy)]
pub enum Ending {
    Whole,
    Wrong,
    Long,
}

#[derive(Clone, Copy)]
pub enum Verb {
    Receive,
    Begin,
    Invoke,
    Result,
    Error,
    Release,
    Table,
    Buffer,
    Batch,
}

// What a line asks for. Octets in hex begin `at` a place of the line and go up to its end.
#[derive(Clone, Copy)]
pub enum Command {
    Receive {
        at: usize,
    },
    Begin {
        operation: u8,
        id: i8,
        at: usize,
    },
    Invoke {
        flag: u8,
        value: u8,
        operation: u8,
        id: i8,
        at: usize,
    },
    Result {
        flag: u8,
        value: u8,
        id: i8,
        at: usize,
    },
    Error {
        flag: u8,
        value: u8,
        id: i8,
        code: u8,
        at: usize,
    },
    Release {
        flag: u8,
        value: u8,
    },
    Table {
        at: usize,
    },
    Buffer(usize),
    Batch {
        at: usize,
    },
}

// A line that is no command.
#[derive(Clone, Copy, Debug, PartialEq, Eq)]
pub struct NotUnderstood;
