// The text of a string in lines of forty cells, as a braille display has it.
ghost use Rattle.std.specs.Prelude.{◌+◌, ◌≤◌, length};
ghost use Rattle.printing.specs.Page.{WroteWithin};
ghost use Rattle.reports.specs.Shown.{laid_lines, cell_lines};

use cells::{Laid, smr_cells};
use printing::page::Page;

// The lines of a text that is laid out.
#[tactic(auto, unfolding(crate::specs::Shown::laid_lines))]
fn laid_lines<const N: usize>(page: &mut Page<N>, laid: Laid, text: &[u16; 182], lines: &[u8; 18])
    requires { (laid.lines ≤ 9) × (length page.old + 640 ≤ N) }
    ensures { WroteWithin 640 page.old (laid_lines (record { laid = laid; text = text.now; lines = lines.now })) page.new }
{
    if laid.code == 0 {
        page.number_line(b"lines", laid.lines as u64);
        page.text_rows(text, &lines[..2 * laid.lines]);
    }
}

// The room is enough for every text that is shown.
#[tactic(auto, unfolding(crate::specs::Shown::cell_lines))]
pub fn cell_lines<const N: usize>(page: &mut Page<N>, scheme: u8, string: &[u8])
    requires { length page.old + 640 ≤ N }
    ensures { WroteWithin 640 page.old (cell_lines scheme string.now) page.new }
{
    let mut text = [0u16; 182];
    let mut lines = [0u8; 18];
    let laid = smr_cells(scheme, string, &mut text, &mut lines);
    laid_lines(page, laid, &text, &lines);
}
