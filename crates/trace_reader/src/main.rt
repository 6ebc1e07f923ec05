// A trace file on standard input, its records as lines on standard output.
#![tactic(auto)]

use printing::page::Page;
use std::io::Print;
use streams::{give, input_failed, read_block};
use trace_lines::shown::print_block;

// Prints a block; whether another may follow.
fn show(
    output: &impl Print,
    errors: &impl Print,
    block: &[u8],
    page: &mut Page<16384>,
    place: u64,
) -> bool {
    let judged = print_block(page, block, place);
    let given = give(output, errors, page.text());
    given.is_ok() & judged.is_ok()
}

// A proved loop has to end, so the places are counted to a number that no input reaches.
fn main(rt: HostRuntime) {
    let mut input = rt.stdin();
    let output = rt.stdout();
    let errors = rt.stderr();
    let mut block = [0u8; 512];
    let mut page = Page::new();
    for place in 0..u64::MAX {
        let Ok(have) = read_block(&mut input, &mut block) else {
            input_failed(&errors);
            break;
        };
        if have == 0 {
            break;
        }
        if !show(&output, &errors, &block[..have], &mut page, place) {
            break;
        }
    }
}
