// What is printed of a batch.
ghost use Rattle.std.specs.Prelude.{◌+◌, ◌*◌, ◌≤◌, length};
ghost use Rattle.printing.specs.Page.{WroteWithin, Filled};
ghost use Rattle.printing.specs.Lent.{FilledAt};
ghost use Rattle.reports.specs.Slots.{slot_text, slot_lines, batched_text};

use crate::shown::print_written;
use crate::verdicts::{done_or_refused, verdict_line};
use printing::page::Page;
use telephone::batch::Batched;

// The slot at the front of the output.
#[tactic(auto, unfolding(crate::specs::Slots::slot_text))]
fn slot_text<const N: usize>(page: &mut Page<N>, output: &[u8])
    requires { (14 ≤ length output.now) × (length page.old + 1328 ≤ N) }
    ensures { WroteWithin 1328 page.old (slot_text output.now) page.new }
{
    page.words(verdict_line(output[0]));
    print_written(page, b"reply", output[1] as usize, &output[2..14]);
}

// So many slots, from the front of the output on.
fn slot_lines<const N: usize>(page: &mut Page<N>, output: &[u8], slots: usize)
    requires { (14 * slots ≤ length output.now) × (length page.old + 1328 * slots ≤ N) }
    ensures { WroteWithin (1328 * slots) page.old (slot_lines slots output.now) page.new }
{
    let mut rest = output;
    for _ in 0..slots {
        slot_text(page, rest);
        rest = &rest[14..];
    }
}

// A batch, with the slots that are written into an output.
#[tactic(auto, unfolding(crate::specs::Slots::batched_text))]
pub fn print_batched<const N: usize>(page: &mut Page<N>, output: &[u8], batched: Batched)
    requires { (length output.now ≤ 300) × ((14 * batched.slots ≤ length output.now) × (70000 ≤ N)) }
    ensures { Filled 70000 (batched_text output.now batched) page.new }
{
    page.clear();
    page.words(done_or_refused(batched.code));
    if batched.code == 0 {
        page.number_line(b"slots", batched.slots as u64);
        slot_lines(page, output, batched.slots);
    }
    page.words(b"\n");
}

// The same at the start of a lent page; the answer is how long it is.
pub fn batched_text(page: &mut [u8], output: &[u8], batched: Batched) -> usize
    requires { (length output.now ≤ 300) × ((14 * batched.slots ≤ length output.now) × (70000 ≤ length page.old)) }
    ensures { FilledAt 70000 page.old (batched_text output.now batched) page.new result }
{
    let mut answer = Page::<70000>::new();
    print_batched(&mut answer, output, batched);
    octets::put(page, 0, answer.text());
    answer.text().len()
}
