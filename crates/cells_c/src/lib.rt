// What C calls of the cells, as the library does it.
#![tactic(auto)]

ghost use Rattle.std.specs.Prelude.{◌≡◌};
ghost use Rattle.cells.specs.Cells.{cells};

use cells::Laid;

// A string of any length and content: its text and its lines, if there is room for both.
#[unsafe(no_mangle)]
pub extern "C" fn smr_cells(scheme: u8, string: &[u8], text: &mut [u16], lines: &mut [u8]) -> Laid
    ensures returned { result ≡ (cells scheme string.now text.old lines.old).laid }
    ensures text { text.new ≡ (cells scheme string.now text.old lines.old).text }
    ensures lines { lines.new ≡ (cells scheme string.now text.old lines.old).lines }
{
    cells::smr_cells(scheme, string, text, lines)
}
