// What is printed of a received message and of a call.
ghost use Rattle.std.specs.Prelude.{◌≡◌, ◌+◌, ◌≤◌, length};
ghost use Rattle.printing.specs.Page.{WroteWithin, Filled};
ghost use Rattle.printing.specs.Lent.{WroteAt, FilledAt};
ghost use Rattle.showing.specs.Views.{standing};
ghost use Rattle.reports.specs.Shown.{kind_lines, number_lines, parameter_line, text_lines, cause_line, written_line, received_text, called_text};

use crate::felt::cell_lines;
use crate::verdicts::{done_or_refused, verdict_line};
use octets::Span;
use printing::page::Page;
use showing::{CauseView, ComponentView, TextView};
use telephone::calls::Called;
use telephone::receive::{Received, shown_parameter};

// A part of the message.
fn part_of(message: &[u8], span: Span) -> &[u8]
    ensures part { result.now ≡ standing message.now span }
    ensures within { length result.now ≤ length message.now }
{
    octets::part(message, span.start, span.end)
}

#[tactic(auto, unfolding(crate::specs::Shown::kind_lines))]
fn kind_lines<const N: usize>(page: &mut Page<N>, view: ComponentView)
    requires { length page.old + 320 ≤ N }
    ensures { WroteWithin 320 page.old (kind_lines view) page.new }
{
    match view.kind {
        0xA1 => page.id_line(b"invoke", view.id),
        0xA2 => page.id_line(b"result", view.id),
        0xA3 => page.id_line(b"error", view.id),
        0xA4 if view.has_id => page.id_line(b"reject", view.id),
        0xA4 => page.words(b"reject none\n"),
        _ => {}
    }
}

#[tactic(auto, unfolding(crate::specs::Shown::number_lines))]
fn number_lines<const N: usize>(page: &mut Page<N>, view: ComponentView)
    requires { length page.old + 256 ≤ N }
    ensures { WroteWithin 256 page.old (number_lines view) page.new }
{
    if view.has_linked {
        page.id_line(b"linked", view.linked);
    }
    if view.has_operation {
        page.number_line(b"operation", view.operation as u64);
    }
    match view.kind {
        0xA3 => page.number_line(b"code", view.code as u64),
        0xA4 => page.problem_line(view.tag, view.problem),
        _ => {}
    }
}

#[tactic(auto, unfolding(crate::specs::Shown::parameter_line))]
fn parameter_line<const N: usize>(page: &mut Page<N>, message: &[u8], received: Received)
    requires { (length message.now ≤ 4096) × (length page.old + 16448 ≤ N) }
    ensures { WroteWithin 16448 page.old (parameter_line message.now received.shown) page.new }
{
    let span = received.shown.parameter;
    if span.start < span.end {
        page.octets_line(b"parameter", shown_parameter(message, received));
    }
}

#[tactic(auto, unfolding(crate::specs::Shown::text_lines))]
fn text_lines<const N: usize>(page: &mut Page<N>, message: &[u8], view: TextView)
    requires { (length message.now ≤ 4096) × (length page.old + 34000 ≤ N) }
    ensures { WroteWithin 34000 page.old (text_lines message.now view) page.new }
{
    if !view.is_there {
        return;
    }
    let string = part_of(message, view.string);
    page.octets_line(b"scheme", &[view.scheme]);
    page.octets_line(b"string", string);
    cell_lines(page, view.scheme, string);
    page.octets_line(b"tail", part_of(message, view.tail));
}

#[tactic(auto, unfolding(crate::specs::Shown::cause_line))]
fn cause_line<const N: usize>(page: &mut Page<N>, message: &[u8], view: CauseView)
    requires { (length message.now ≤ 4096) × (length page.old + 16448 ≤ N) }
    ensures { WroteWithin 16448 page.old (cause_line message.now view) page.new }
{
    if view.is_there {
        page.octets_line(b"cause", part_of(message, view.contents));
    }
}

// What is to be sent: the front of the buffer.
#[tactic(auto, unfolding(crate::specs::Shown::written_line))]
pub fn print_written<const N: usize>(page: &mut Page<N>, word: &[u8], written: usize, buffer: &[u8])
    requires { (length word.now ≤ 16) × ((length buffer.now ≤ 300) × (length page.old + 1264 ≤ N)) }
    ensures { WroteWithin 1264 page.old (written_line word.now written buffer.now) page.new }
{
    if 0 < written {
        page.octets_line(word, octets::part(buffer, 0, written));
    }
}

// The same in a lent page, at a place; the answer is the place behind it.
pub fn written_line(page: &mut [u8], at: usize, word: &[u8], written: usize, buffer: &[u8]) -> usize
    requires { (length word.now ≤ 16) × ((length buffer.now ≤ 300) × (at + 1264 ≤ length page.old)) }
    ensures { WroteAt 1264 page.old at (written_line word.now written buffer.now) page.new result }
{
    let mut line = Page::<1264>::new();
    print_written(&mut line, word, written, buffer);
    octets::put(page, at, line.text());
    at + line.text().len()
}

// A received message, with the reply that is written into a buffer.
#[tactic(auto, unfolding(crate::specs::Shown::received_text))]
pub fn print_received<const N: usize>(
    page: &mut Page<N>,
    message: &[u8],
    reply: &[u8],
    received: Received,
)
    requires { (length message.now ≤ 4096) × ((length reply.now ≤ 300) × (70000 ≤ N)) }
    ensures { Filled 70000 (received_text message.now reply.now received) page.new }
{
    page.clear();
    page.words(verdict_line(received.code));
    kind_lines(page, received.shown);
    number_lines(page, received.shown);
    parameter_line(page, message, received);
    text_lines(page, message, received.text);
    cause_line(page, message, received.cause);
    print_written(page, b"reply", received.written, reply);
    page.words(b"\n");
}

// The same at the start of a lent page; the answer is how long it is.
pub fn received_text(page: &mut [u8], message: &[u8], reply: &[u8], received: Received) -> usize
    requires { (length message.now ≤ 4096) × ((length reply.now ≤ 300) × (70000 ≤ length page.old)) }
    ensures { FilledAt 70000 page.old (received_text message.now reply.now received) page.new result }
{
    let mut answer = Page::<70000>::new();
    print_received(&mut answer, message, reply, received);
    octets::put(page, 0, answer.text());
    answer.text().len()
}

// A call, with the message that is written into a buffer; a begin tells its value.
#[tactic(auto, unfolding(crate::specs::Shown::called_text))]
pub fn print_called<const N: usize>(page: &mut Page<N>, begins: bool, buffer: &[u8], called: Called)
    requires { (length buffer.now ≤ 300) × (70000 ≤ N) }
    ensures { Filled 70000 (called_text begins buffer.now called) page.new }
{
    page.clear();
    page.words(done_or_refused(called.code));
    if begins && called.code == 0 {
        page.number_line(b"value", called.value as u64);
    }
    print_written(page, b"message", called.written, buffer);
    page.words(b"\n");
}

// The same at the start of a lent page; the answer is how long it is.
pub fn called_text(page: &mut [u8], begins: bool, buffer: &[u8], called: Called) -> usize
    requires { (length buffer.now ≤ 300) × (70000 ≤ length page.old) }
    ensures { FilledAt 70000 page.old (called_text begins buffer.now called) page.new result }
{
    let mut report = Page::<70000>::new();
    print_called(&mut report, begins, buffer, called);
    octets::put(page, 0, report.text());
    report.text().len()
}
