// Salvage: what becomes of a block, which is mended in its place.
ghost use Rattle.std.specs.Prelude.{◌≡◌};
ghost use Rattle.trace.specs.Salvage.{fate_of};
ghost use Rattle.trace.specs.Seen.{mended, is_kept};

use crate::Fate;
use crate::blocks::{block_fault, number_in, put_number};

// The next block of a file, where so many were kept before it.
pub fn mend_block(block: &mut [u8], kept: u64) -> Fate
    ensures fate { result ≡ fate_of kept block.old }
    ensures block { block.new ≡ mended kept block.old (fate_of kept block.old) }
{
    let Some(block) = block.as_mut_array() else {
        return Fate::Short;
    };
    let number = number_in(block);
    if let Err(fault) = block_fault(block) {
        return Fate::Dropped {
            number,
            fault: fault.number(),
        };
    }
    if number as u64 == kept {
        return Fate::Kept;
    }
    put_number(block, (kept % 4294967296) as u32);
    Fate::Renumbered { number }
}

// Whether the block is written.
pub fn is_kept(fate: Fate) -> bool
    ensures { result ≡ is_kept fate }
{
    matches!(fate, Fate::Kept | Fate::Renumbered { .. })
}
