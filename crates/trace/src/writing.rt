// The writer: one block is held, and handed over where a record doesn't fit behind those that it has.
ghost use Rattle.std.specs.Prelude.{◌≡◌, IfErr};
ghost use Rattle.trace.specs.Calls.{add_answer, add_leaves};
ghost use Rattle.trace.specs.Faults.{number_of};
ghost use Rattle.trace.specs.Seen.{answer_of};
ghost use Rattle.trace.specs.Steps.{wrote, holds, hands_over};

use crate::blocks::{begin_block, block_fault, pair_at, put_record};
use crate::faults::Fault;
use crate::reading::is_good;

// A record behind those of a block; whether it fits.
pub(crate) fn add_record(
    block: &mut [u8; 512],
    direction: u8,
    message: &[u8],
) -> Result<bool, Fault>
    ensures answer { answer_of result ≡ add_answer block.old (record { direction = direction; message = message.now }) }
    ensures block { block.new ≡ add_leaves block.old (record { direction = direction; message = message.now }) }
{
    block_fault(block)?;
    if !is_good(direction, message) {
        return Err(Fault::BadRecords);
    }
    let used = pair_at(block, 4) as usize;
    if 504 < used + 2 + message.len() {
        return Ok(false);
    }
    put_record(block, used, direction, message);
    Ok(true)
}

// The number of the block that is held, and whether the one before it was handed over.
#[derive(Clone, Copy)]
pub struct Wrote {
    pub number: u32,
    pub is_full: bool,
}

// A record more.
pub fn write_record(
    held: &mut [u8; 512],
    full: &mut [u8; 512],
    number: u32,
    direction: u8,
    message: &[u8],
) -> Result<Wrote, Fault>
    ensures answer { result ≡ wrote held.old number (record { direction = direction; message = message.now }) }
    ensures number { IfErr result (λ f. number_of f ≡ (add_answer held.old (record { direction = direction; message = message.now })).code) }
    ensures held { held.new ≡ holds held.old number (record { direction = direction; message = message.now }) }
    ensures full { full.new ≡ hands_over full.old held.old (record { direction = direction; message = message.now }) }
{
    if add_record(held, direction, message)? {
        return Ok(Wrote {
            number,
            is_full: false,
        });
    }
    full.copy_from_slice(held);
    let next = number.wrapping_add(1);
    begin_block(held, next);
    let _ = add_record(held, direction, message);
    Ok(Wrote {
        number: next,
        is_full: true,
    })
}
