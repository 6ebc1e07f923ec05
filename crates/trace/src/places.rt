// A block at its place in a file, and the octets of its records.
ghost use Rattle.std.specs.Prelude.{◌≡◌, ◌≤◌, length};
ghost use Rattle.trace.specs.Blocks.{record_part, records_at, fault_of};
ghost use Rattle.trace.specs.Faults.{code_of};

use crate::blocks::{block_fault, number_in, pair_at};
use crate::faults::Fault;

// The first fault.
pub fn fault_at(block: &[u8], place: u64) -> Result<(), Fault>
    ensures { code_of result ≡ fault_of (records_at place block.now) }
{
    let Some(whole) = block.as_array() else {
        return Err(Fault::WrongLength);
    };
    block_fault(whole)?;
    if number_in(whole) as u64 != place {
        return Err(Fault::WrongNumber);
    }
    Ok(())
}

// The octets that are used.
pub fn record_part(block: &[u8]) -> &[u8]
    requires { 6 ≤ length block.now }
    ensures { result.now ≡ record_part block.now }
{
    octets::part(block, 6, 6 + pair_at(block, 4) as usize)
}
