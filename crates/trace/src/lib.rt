// A trace file: blocks of records, judged, read, written and mended. No input or output here.
#![tactic(auto)]

mod blocks;
pub mod faults;
pub mod places;
pub mod reading;
pub mod salvage;
pub mod writing;

ghost use Rattle.std.specs.Prelude.{◌≡◌};
ghost use Rattle.trace.specs.Calls.{begin_answer, begin_leaves, add_answer, add_leaves};
ghost use Rattle.trace.specs.Seen.{answer_of};

use crate::blocks::begin_block;
use crate::faults::Fault;
use crate::writing::add_record;

// The refusal, or 0; whether the block has what was wanted.
#[repr(C)]
#[derive(Clone, Copy)]
pub struct Traced {
    pub code: u8,
    pub added: bool,
}

// What becomes of a block that is salvaged.
#[derive(Clone, Copy)]
pub enum Fate {
    Kept,
    Renumbered { number: u32 },
    Dropped { number: u32, fault: u8 },
    Short,
}

// As C sees it.
fn answer(outcome: Result<bool, Fault>) -> Traced
    ensures { result ≡ answer_of outcome }
{
    match outcome {
        Ok(added) => Traced { code: 0, added },
        Err(fault) => Traced {
            code: fault.number(),
            added: false,
        },
    }
}

// An empty block of this number.
pub fn smr_trace_begin(block: &mut [u8], number: u32) -> Traced
    ensures answer { result ≡ begin_answer block.old }
    ensures block { block.new ≡ begin_leaves block.old number }
{
    let Some(block) = block.as_mut_array() else {
        return answer(Err(Fault::WrongLength));
    };
    begin_block(block, number);
    answer(Ok(true))
}

// A record behind those of a block.
pub fn smr_trace_add(block: &mut [u8], direction: u8, message: &[u8]) -> Traced
    ensures answer { result ≡ add_answer block.old (record { direction = direction; message = message.now }) }
    ensures block { block.new ≡ add_leaves block.old (record { direction = direction; message = message.now }) }
{
    match block.as_mut_array() {
        Some(block) => answer(add_record(block, direction, message)),
        None => answer(Err(Fault::WrongLength)),
    }
}
