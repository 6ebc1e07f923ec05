// What the reader prints of a block.
ghost use Rattle.std.specs.Prelude.{◌≡◌, true, not, ◌+◌, ◌*◌, ◌≤◌, length, eqb};
ghost use Rattle.printing.specs.Lent.{FilledAt};
ghost use Rattle.printing.specs.Page.{WroteWithin, Filled};
ghost use Rattle.trace.specs.Records.{records_in};
ghost use Rattle.trace.specs.Blocks.{records_at, records_or, fault_of};
ghost use Rattle.trace.specs.Faults.{code_of};
ghost use Rattle.trace.specs.Seen.{is_sound};
ghost use Rattle.trace_lines.specs.Shown.{four_line, record_line, record_lines, block_text, bad_line};

use printing::page::Page;
use trace::faults::Fault;
use trace::places::{fault_at, record_part};
use trace::reading::read_traced;

// How much of the page is written, and whether the block is refused.
#[derive(Clone, Copy)]
pub struct Shown {
    pub written: usize,
    pub is_refused: bool,
}

// A word, a number, a word, a number.
pub(crate) fn four_line<const N: usize>(
    page: &mut Page<N>,
    first: &[u8],
    n: u64,
    second: &[u8],
    k: u64,
)
    requires { (length first.now ≤ 12) × ((length second.now ≤ 12) × (length page.old + 80 ≤ N)) }
    ensures { WroteWithin 80 page.old (four_line first.now n second.now k) page.new }
{
    page.words(first);
    page.decimal(n);
    page.words(second);
    page.decimal(k);
    page.words(b"\n");
}

fn record_line<const N: usize>(page: &mut Page<N>, direction: u8, message: &[u8])
    requires { length page.old + 4 * length message.now + 64 ≤ N }
    ensures { WroteWithin (4 * length message.now + 64) page.old
        (record_line (record { direction = direction; message = message.now })) page.new }
{
    if direction == 0 {
        page.octets_line(b"received", message);
    } else {
        page.octets_line(b"sent", message);
    }
}

// The records of a row of octets, a line or more each.
fn record_lines<const N: usize>(page: &mut Page<N>, s: &[u8])
    requires { (is_sound (records_in s.now) ≡ true) × (length page.old + 26 * length s.now ≤ N) }
    ensures { WroteWithin (26 * length s.now) page.old (record_lines (records_or (records_in s.now))) page.new }
{
    let mut rest = s;
    while !rest.is_empty() {
        let Some(found) = read_traced(rest) else {
            return;
        };
        record_line(page, found.direction, &rest[2..found.end]);
        rest = &rest[found.end..];
    }
}

// Its records, or the place and the number of its first fault; whether it has one.
pub fn print_block(page: &mut Page<16384>, block: &[u8], place: u64) -> Result<(), Fault>
    ensures page { Filled 16384 (block_text place block.now) page.new }
    ensures refused { code_of result ≡ fault_of (records_at place block.now) }
{
    page.clear();
    if let Err(fault) = fault_at(block, place) {
        let number = fault.number() as u64;
        four_line(page, b"block ", place, b" refused ", number);
        return Err(fault);
    }
    record_lines(page, record_part(block));
    Ok(())
}

// The same on a lent page.
pub fn block_lines(page: &mut [u8; 16384], block: &[u8], place: u64) -> Shown
    ensures page { FilledAt 16384 page.old (block_text place block.now) page.new result.written }
    ensures refused { result.is_refused ≡ not (eqb (fault_of (records_at place block.now)) 0) }
{
    let mut shown = Page::<16384>::new();
    let judged = print_block(&mut shown, block, place);
    octets::put(page, 0, shown.text());
    Shown {
        written: shown.text().len(),
        is_refused: judged.is_err(),
    }
}

// The line on which a bad record begins.
pub fn print_refused(page: &mut Page<80>, line: u64)
    ensures { Filled 80 (bad_line line) page.new }
{
    page.clear();
    let number = Fault::BadRecords.number() as u64;
    four_line(page, b"line ", line, b" refused ", number);
}

// The same on a lent page: how much of it is written.
pub fn refused_at(page: &mut [u8; 80], line: u64) -> usize
    ensures { FilledAt 80 page.old (bad_line line) page.new result }
{
    let mut told = Page::<80>::new();
    print_refused(&mut told, line);
    octets::put(page, 0, told.text());
    told.text().len()
}
