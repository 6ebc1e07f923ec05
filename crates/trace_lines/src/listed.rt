// The list of what salvage dropped or renumbered.
ghost use Rattle.std.specs.Prelude.{◌≡◌};
ghost use Rattle.printing.specs.Lent.{FilledAt};
ghost use Rattle.printing.specs.Page.{Filled};
ghost use Rattle.trace.specs.Salvage.{listed_by};
ghost use Rattle.trace_lines.specs.Listed.{listed_lines};

use crate::shown::four_line;
use printing::page::Page;
use trace::Fate;
use trace::faults::Fault;

// The line of a block at this place of the input, or none.
pub fn print_fate(page: &mut Page<80>, fate: Fate, place: u64)
    ensures { Filled 80 (listed_lines (listed_by place fate)) page.new }
{
    page.clear();
    match fate {
        Fate::Kept => {}
        Fate::Renumbered { number } => {
            let fault = Fault::WrongNumber.number() as u64;
            four_line(page, b"number ", number as u64, b" renumbered ", fault);
        }
        Fate::Dropped { number, fault } => {
            four_line(page, b"number ", number as u64, b" dropped ", fault as u64);
        }
        Fate::Short => {
            let fault = Fault::WrongLength.number() as u64;
            four_line(page, b"place ", place, b" dropped ", fault);
        }
    }
}

// The same on a lent page: how much of it is written.
pub fn list_line(page: &mut [u8; 80], fate: Fate, place: u64) -> usize
    ensures { FilledAt 80 page.old (listed_lines (listed_by place fate)) page.new result }
{
    let mut listed = Page::<80>::new();
    print_fate(&mut listed, fate, place);
    octets::put(page, 0, listed.text());
    listed.text().len()
}
