// The five local calls. A refused one writes nothing and changes no transaction.
ghost use Rattle.std.specs.Prelude.{◌≡◌};
ghost use Rattle.codes.specs.Refusals.{number_of};
ghost use Rattle.table.specs.Change.{CanChange, with_change};
ghost use Rattle.table.specs.Seen.{change_seen};
ghost use Rattle.telephone.specs.Calls.{begin, invoke_within, result as result_call, error, release};
ghost use Rattle.telephone.specs.FromC.{called_of, refused_call, sent_call};

use calling::Going;
use codes::refusals::Refusal;

// 0 or the number of the refusal; the value that a begin takes; how many octets of the message are written.
#[repr(C)]
#[derive(Clone, Copy)]
pub struct Called {
    pub code: u8,
    pub value: u8,
    pub written: usize,
}

fn refused(refusal: Refusal) -> Called
    ensures { result ≡ refused_call (number_of refusal) }
{
    Called {
        code: refusal.number(),
        value: 0,
        written: 0,
    }
}

// The message of a call is written: its entry changes.
fn sent(table: &mut [u8], going: Going, value: u8, written: usize) -> Called
    requires { CanChange table.old going.entry (change_seen going.change) }
    ensures returned { result ≡ sent_call value written }
    ensures table { table.new ≡ with_change table.old going.entry (change_seen going.change) }
{
    table::change_entry(table, going.entry, going.change);
    Called {
        code: 0,
        value,
        written,
    }
}

#[tactic(auto, unfolding(crate::specs::Calls::begin), using(calling::proofs::Lengths::call_steps))]
pub fn smr_begin(
    table: &mut [u8],
    operation: u8,
    id: i8,
    parameter: &[u8],
    buffer: &mut [u8],
) -> Called
    ensures returned { result ≡ called_of (begin table.old buffer.old operation id parameter.now) }
    ensures buffer { buffer.new ≡ (begin table.old buffer.old operation id parameter.now).buffer }
    ensures table { table.new ≡ (begin table.old buffer.old operation id parameter.now).table }
{
    let going = match calling::decide_begin(table, buffer.len(), operation, id, parameter) {
        Ok(going) => going,
        Err(refusal) => return refused(refusal), // no value is taken
    };
    let first = messages::layout::sent_first(1, going.entry);
    let written = sending::put_register(buffer, first, id, operation, parameter);
    sent(table, going, going.entry, written)
}

#[tactic(auto, unfolding(crate::specs::Calls::invoke_within), using(calling::proofs::Lengths::call_steps))]
pub fn smr_invoke(
    table: &mut [u8],
    flag: u8,
    value: u8,
    operation: u8,
    id: i8,
    parameter: &[u8],
    buffer: &mut [u8],
) -> Called
    ensures returned { result ≡ called_of (invoke_within table.old buffer.old flag value operation id parameter.now) }
    ensures buffer { buffer.new ≡ (invoke_within table.old buffer.old flag value operation id parameter.now).buffer }
    ensures table { table.new ≡ (invoke_within table.old buffer.old flag value operation id parameter.now).table }
{
    let going = match calling::decide_invoke(
        table,
        buffer.len(),
        flag,
        value,
        operation,
        id,
        parameter,
    ) {
        Ok(going) => going,
        Err(refusal) => return refused(refusal),
    };
    let first = messages::layout::sent_first(flag, value);
    let written = sending::put_invoke(buffer, first, id, operation, parameter);
    sent(table, going, 0, written)
}

#[tactic(auto, unfolding(crate::specs::Calls::result), using(calling::proofs::Lengths::call_steps))]
pub fn smr_result(
    table: &mut [u8],
    flag: u8,
    value: u8,
    id: i8,
    parameter: &[u8],
    buffer: &mut [u8],
) -> Called
    ensures returned { result ≡ called_of (result_call table.old buffer.old flag value id parameter.now) }
    ensures buffer { buffer.new ≡ (result_call table.old buffer.old flag value id parameter.now).buffer }
    ensures table { table.new ≡ (result_call table.old buffer.old flag value id parameter.now).table }
{
    let going = match calling::decide_result(table, buffer.len(), flag, value, id, parameter) {
        Ok(going) => going,
        Err(refusal) => return refused(refusal),
    };
    let first = messages::layout::sent_first(flag, value);
    let written = sending::put_answer(buffer, first, id, going.operation, parameter);
    sent(table, going, 0, written)
}

#[tactic(auto, unfolding(crate::specs::Calls::error), using(calling::proofs::Lengths::call_steps))]
pub fn smr_error(
    table: &mut [u8],
    flag: u8,
    value: u8,
    id: i8,
    code: u8,
    parameter: &[u8],
    buffer: &mut [u8],
) -> Called
    ensures returned { result ≡ called_of (error table.old buffer.old flag value id code parameter.now) }
    ensures buffer { buffer.new ≡ (error table.old buffer.old flag value id code parameter.now).buffer }
    ensures table { table.new ≡ (error table.old buffer.old flag value id code parameter.now).table }
{
    let going = match calling::decide_error(table, buffer.len(), flag, value, id, code, parameter) {
        Ok(going) => going,
        Err(refusal) => return refused(refusal),
    };
    let first = messages::layout::sent_first(flag, value);
    let written = sending::put_error(buffer, first, id, code, parameter);
    sent(table, going, 0, written)
}

#[tactic(auto, unfolding(crate::specs::Calls::release), using(calling::proofs::Lengths::call_steps))]
pub fn smr_release(table: &mut [u8], flag: u8, value: u8, buffer: &mut [u8]) -> Called
    ensures returned { result ≡ called_of (release table.old buffer.old flag value) }
    ensures buffer { buffer.new ≡ (release table.old buffer.old flag value).buffer }
    ensures table { table.new ≡ (release table.old buffer.old flag value).table }
{
    let going = match calling::decide_release(table, buffer.len(), flag, value) {
        Ok(going) => going,
        Err(refusal) => return refused(refusal),
    };
    let first = messages::layout::sent_first(flag, value);
    let written = sending::put_release(buffer, first);
    sent(table, going, 0, written)
}
