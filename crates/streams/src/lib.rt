// Standard input in blocks, and standard output; a program says where one of them fails.
#![tactic(auto)]

ghost use Rattle.std.specs.Prelude.{◌≤◌, length, IfOk, IfErr};

use std::io;
use std::io::{Print, Read};

// A read failed, with so many octets of the block read before it. That is not the end of the input.
#[derive(Clone, Copy, Debug, PartialEq, Eq)]
pub struct Failed {
    pub have: usize,
}

// Reads until the block is full or the input ends: how many octets were read. A read may give less than was asked for, so
// what is there is counted.
pub fn read_block(input: &mut impl Read, block: &mut [u8]) -> Result<usize, Failed>
    ensures read { IfOk result (λ have. have ≤ length block.old) }
    ensures failed { IfErr result (λ failed. failed.have ≤ length block.old) }
{
    let mut have = 0;
    while have < block.len() {
        let Ok(n) = input.read(&mut block[have..]) else {
            return Err(Failed { have });
        };
        if n == 0 {
            break;
        }
        have += n;
    }
    Ok(have)
}

pub fn input_failed(errors: &impl Print) {
    let _ = errors.write_all(b"input failed\n");
}

// Writes octets, or says that this can't be done.
pub fn give(output: &impl Print, errors: &impl Print, octets: &[u8]) -> io::Result<()> {
    let given = output.write_all(octets);
    if given.is_err() {
        let _ = errors.write_all(b"output failed\n");
    }
    given
}
