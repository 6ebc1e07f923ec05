// What a line asks for.
ghost use Rattle.std.specs.Prelude.{◌≡◌};
ghost use Rattle.words.specs.Commands.{verb_of, ended, begin_at, invoke_at, result_at, error_at, release_at, buffer_at, by_verb, command};

use crate::numbers::{id_at, number, octet_at};
use crate::text::{is_same, word_at};
use crate::{Command, NotUnderstood, Verb};

// No `match`: of a byte string's arm a proof learns the length alone.
#[tactic(auto, unfolding(crate::specs::Commands::verb_of))]
fn verb_of(word: &[u8]) -> Option<Verb>
    ensures { result ≡ verb_of word.now }
{
    if is_same(word, b"receive") {
        return Some(Verb::Receive);
    }
    if is_same(word, b"begin") {
        return Some(Verb::Begin);
    }
    if is_same(word, b"invoke") {
        return Some(Verb::Invoke);
    }
    if is_same(word, b"result") {
        return Some(Verb::Result);
    }
    if is_same(word, b"error") {
        return Some(Verb::Error);
    }
    if is_same(word, b"release") {
        return Some(Verb::Release);
    }
    if is_same(word, b"table") {
        return Some(Verb::Table);
    }
    if is_same(word, b"buffer") {
        return Some(Verb::Buffer);
    }
    if is_same(word, b"batch") {
        return Some(Verb::Batch);
    }
    None
}

// Whether nothing but blanks stands from a place on.
fn is_ended(s: &[u8], at: usize) -> bool
    ensures { result ≡ ended s.now at }
{
    let word = word_at(s, at);
    octets::part(s, word.start, word.end).is_empty()
}

#[tactic(auto, unfolding(crate::specs::Commands::begin_at))]
fn begin_at(s: &[u8], at: usize) -> Option<Command>
    ensures { result ≡ begin_at s.now at }
{
    let operation = octet_at(s, at)?;
    let id = id_at(s, operation.next)?;
    Some(Command::Begin {
        operation: operation.value,
        id: id.value,
        at: id.next,
    })
}

#[tactic(auto, unfolding(crate::specs::Commands::invoke_at))]
fn invoke_at(s: &[u8], at: usize) -> Option<Command>
    ensures { result ≡ invoke_at s.now at }
{
    let flag = octet_at(s, at)?;
    let value = octet_at(s, flag.next)?;
    let operation = octet_at(s, value.next)?;
    let id = id_at(s, operation.next)?;
    Some(Command::Invoke {
        flag: flag.value,
        value: value.value,
        operation: operation.value,
        id: id.value,
        at: id.next,
    })
}

#[tactic(auto, unfolding(crate::specs::Commands::result_at))]
fn result_at(s: &[u8], at: usize) -> Option<Command>
    ensures { result ≡ result_at s.now at }
{
    let flag = octet_at(s, at)?;
    let value = octet_at(s, flag.next)?;
    let id = id_at(s, value.next)?;
    Some(Command::Result {
        flag: flag.value,
        value: value.value,
        id: id.value,
        at: id.next,
    })
}

#[tactic(auto, unfolding(crate::specs::Commands::error_at))]
fn error_at(s: &[u8], at: usize) -> Option<Command>
    ensures { result ≡ error_at s.now at }
{
    let flag = octet_at(s, at)?;
    let value = octet_at(s, flag.next)?;
    let id = id_at(s, value.next)?;
    let code = octet_at(s, id.next)?;
    Some(Command::Error {
        flag: flag.value,
        value: value.value,
        id: id.value,
        code: code.value,
        at: code.next,
    })
}

#[tactic(auto, unfolding(crate::specs::Commands::release_at))]
fn release_at(s: &[u8], at: usize) -> Option<Command>
    ensures { result ≡ release_at s.now at }
{
    let flag = octet_at(s, at)?;
    let value = octet_at(s, flag.next)?;
    if !is_ended(s, value.next) {
        return None;
    }
    Some(Command::Release {
        flag: flag.value,
        value: value.value,
    })
}

#[tactic(auto, unfolding(crate::specs::Commands::buffer_at))]
fn buffer_at(s: &[u8], at: usize) -> Option<Command>
    ensures { result ≡ buffer_at s.now at }
{
    let word = word_at(s, at);
    if !is_ended(s, word.end) {
        return None;
    }
    let n = number(octets::part(s, word.start, word.end), 300)?;
    Some(Command::Buffer(n))
}

#[tactic(auto, unfolding(crate::specs::Commands::by_verb))]
fn by_verb(s: &[u8], at: usize, verb: Verb) -> Option<Command>
    ensures { result ≡ by_verb s.now at verb }
{
    match verb {
        Verb::Receive => Some(Command::Receive { at }),
        Verb::Begin => begin_at(s, at),
        Verb::Invoke => invoke_at(s, at),
        Verb::Result => result_at(s, at),
        Verb::Error => error_at(s, at),
        Verb::Release => release_at(s, at),
        Verb::Table => Some(Command::Table { at }),
        Verb::Buffer => buffer_at(s, at),
        Verb::Batch => Some(Command::Batch { at }),
    }
}

// The command that a line is; none for one that is empty or a comment.
#[tactic(auto, unfolding(crate::specs::Commands::command))]
pub fn command(line: &[u8]) -> Result<Option<Command>, NotUnderstood>
    ensures { result ≡ command line.now }
{
    let first = word_at(line, 0);
    let word = octets::part(line, first.start, first.end);
    if word.is_empty() || word[0] == b'#' {
        return Ok(None);
    }
    let verb = verb_of(word).ok_or(NotUnderstood)?;
    let command = by_verb(line, first.end, verb).ok_or(NotUnderstood)?;
    Ok(Some(command))
}
