// Blocks: what they say, their faults, and how they are written.
ghost use Rattle.std.specs.Prelude.{◌≡◌, ◌+◌, ◌%◌, ◌<◌, ◌≤◌, true, [], length, take};
ghost use Rattle.octets.specs.Splice.{splice};
ghost use Rattle.trace.specs.Numbers.{two, four, pair_at, sum_of};
ghost use Rattle.trace.specs.Blocks.{all_zero, zeros, number_in, used_in, rest_part, sealed, block_of, block_records, fault_of};
ghost use Rattle.trace.specs.Calls.{with_record};
ghost use Rattle.trace.specs.Faults.{code_of};
ghost use Rattle.trace.specs.Salvage.{renumbered};

use crate::faults::Fault;
use crate::reading::are_records;

// The number that two octets say, high first.
pub(crate) fn pair_at(s: &[u8], at: usize) -> u16
    requires { at + 2 ≤ length s.now }
    ensures { result ≡ pair_at s.now at }
{
    u16::from_be_bytes([s[at], s[at + 1]])
}

// The block's number.
pub(crate) fn number_in(block: &[u8; 512]) -> u32
    ensures { result ≡ number_in block.now }
{
    u32::from_be_bytes([block[0], block[1], block[2], block[3]])
}

// Modulo 65,536 by a test: a sum that only adds is made of wide registers, at four times the octets of code.
fn wrapped(n: usize) -> usize
    requires { n < 131072 }
    ensures { result ≡ n % 65536 }
{
    if n < 65536 { n } else { n - 65536 }
}

fn sum_of(s: &[u8]) -> u16
    ensures { result ≡ sum_of s.now }
{
    let mut sum = 0;
    for octet in s {
        sum = wrapped(sum + *octet as usize);
    }
    sum as u16
}

fn is_zero(s: &[u8]) -> bool
    ensures { result ≡ all_zero s.now }
{
    s.iter().all(|octet| *octet == 0)
}

// The first fault that is not its number.
pub(crate) fn block_fault(block: &[u8; 512]) -> Result<(), Fault>
    ensures { code_of result ≡ fault_of (block_records block.now) }
{
    if sum_of(&block[..510]) != pair_at(block, 510) {
        return Err(Fault::WrongSum);
    }
    let used = pair_at(block, 4) as usize;
    if 504 < used {
        return Err(Fault::TooMuchUsed);
    }
    if !is_zero(&block[6 + used..510]) {
        return Err(Fault::BadRecords);
    }
    if !are_records(&block[6..6 + used]) {
        return Err(Fault::BadRecords);
    }
    Ok(())
}

fn put_pair(block: &mut [u8; 512], at: usize, n: u16)
    requires { at + 2 ≤ 512 }
    ensures { block.new ≡ splice block.old at (two n) }
{
    octets::put(block, at, &n.to_be_bytes());
}

// The sum of the first 510 octets, behind them.
fn seal(block: &mut [u8; 512])
    ensures { block.new ≡ sealed (take 510 block.old) }
{
    let sum = sum_of(&block[..510]);
    put_pair(block, 510, sum);
}

fn clear(block: &mut [u8; 512])
    ensures { block.new ≡ zeros (length block.old) }
{
    block.fill(0);
}

// A number at the front of a block, and the sum.
pub(crate) fn put_number(block: &mut [u8; 512], number: u32)
    ensures { block.new ≡ renumbered number block.old }
{
    octets::put(block, 0, &number.to_be_bytes());
    seal(block);
}

// An empty block.
pub(crate) fn begin_block(block: &mut [u8; 512], number: u32)
    ensures { block.new ≡ block_of number [] }
{
    clear(block);
    put_number(block, number);
}

// A record behind so many octets that are used, where the rest is zero.
pub(crate) fn put_record(block: &mut [u8; 512], used: usize, direction: u8, message: &[u8])
    requires { (used ≡ used_in block.old) × ((all_zero (rest_part block.old) ≡ true)
        × ((used + 2 + length message.now ≤ 504) × (length message.now ≤ 255))) }
    ensures { block.new ≡ with_record block.old (record { direction = direction; message = message.now }) }
{
    let octets = [direction, message.len() as u8];
    octets::put(block, 6 + used, &octets);
    octets::put(block, 8 + used, message);
    put_pair(block, 4, (used + 2 + message.len()) as u16);
    seal(block);
}
