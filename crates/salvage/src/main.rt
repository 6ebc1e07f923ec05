// A trace file, sound or not, on standard input; the mended file on standard output, and the list on standard error.
#![tactic(auto)]

use printing::page::Page;
use std::io;
use std::io::Print;
use streams::{give, input_failed, read_block};
use trace::salvage::{is_kept, mend_block};
use trace_lines::listed::print_fate;

// Writes a block if it is kept, and its line of the list: whether it is kept. The block is written even where the line can't be.
fn mend(
    output: &impl Print,
    errors: &impl Print,
    block: &mut [u8],
    line: &mut Page<80>,
    kept: u64,
    place: u64,
) -> io::Result<bool> {
    let fate = mend_block(block, kept);
    print_fate(line, fate, place);
    let listed = give(errors, errors, line.text());
    if is_kept(fate) {
        give(output, errors, block)?;
    }
    listed?;
    Ok(is_kept(fate))
}

// A proved loop has to end, so the places are counted to a number that no input reaches.
fn main(rt: HostRuntime) {
    let mut input = rt.stdin();
    let output = rt.stdout();
    let errors = rt.stderr();
    let mut block = [0u8; 512];
    let mut line = Page::new();
    let mut kept = 0;
    for place in 0..u64::MAX {
        let Ok(have) = read_block(&mut input, &mut block) else {
            input_failed(&errors);
            break;
        };
        if have == 0 {
            break;
        }
        let Ok(is_kept) = mend(&output, &errors, &mut block[..have], &mut line, kept, place) else {
            break;
        };
        if is_kept {
            kept += 1;
        }
    }
}
