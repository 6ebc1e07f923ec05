// What C calls of a trace, as the library does it.
#![tactic(auto)]

ghost use Rattle.std.specs.Prelude.{◌≡◌};
ghost use Rattle.trace.specs.Calls.{begin_answer, begin_leaves, add_answer, add_leaves};

use trace::Traced;

// An empty block of this number.
#[unsafe(no_mangle)]
pub extern "C" fn smr_trace_begin(block: &mut [u8], number: u32) -> Traced
    ensures answer { result ≡ begin_answer block.old }
    ensures block { block.new ≡ begin_leaves block.old number }
{
    trace::smr_trace_begin(block, number)
}

// A record behind those of a block.
#[unsafe(no_mangle)]
pub extern "C" fn smr_trace_add(block: &mut [u8], direction: u8, message: &[u8]) -> Traced
    ensures answer { result ≡ add_answer block.old (record { direction = direction; message = message.now }) }
    ensures block { block.new ≡ add_leaves block.old (record { direction = direction; message = message.now }) }
{
    trace::smr_trace_add(block, direction, message)
}
