// Local calls: refused for a reason, or ready to send. Nothing is written here.
#![tactic(auto)]

ghost use Rattle.std.specs.Prelude.{◌≡◌};
ghost use Rattle.calling.specs.Seen.{FindsOpen, length_refusal, DecidesBegin, DecidesInvoke, DecidesResult, DecidesError, DecidesRelease};

use codes::refusals::Refusal;
use table::Change;

// What a call does that is not refused: its entry with the change, and the operation that the message names.
#[derive(Clone, Copy)]
pub struct Going {
    pub entry: u8,
    pub change: Change,
    pub operation: u8,
}

// The entry of an open transaction.
#[tactic(auto, unfolding(crate::specs::Calls::transaction))]
fn find_open(table: &[u8], flag: u8, value: u8) -> Option<u8>
    ensures { FindsOpen table.now flag value result }
{
    let k = table::entry_named(flag, value)?;
    let named = table::read_entry(table, k);
    if !named.open {
        return None;
    }
    Some(k)
}

// A message of so many octets is too long, or has no room.
fn length_refusal(n: usize, room: usize) -> Result<(), Refusal>
    ensures { result ≡ length_refusal n room }
{
    if 255 < n {
        return Err(Refusal::MessageTooLong);
    }
    if room < n {
        return Err(Refusal::BufferTooShort);
    }
    Ok(())
}

// Each call makes its tests in the order of its definition, so a test that several share stands in each of them.
#[tactic(auto, unfolding(crate::specs::Calls::send_begin, crate::specs::Calls::fitting), using(crate::proofs::Lengths::call_steps))]
pub fn decide_begin(
    table: &[u8],
    room: usize,
    operation: u8,
    id: i8,
    p: &[u8],
) -> Result<Going, Refusal>
    ensures { DecidesBegin table.now room operation id p.now result }
{
    if !table::is_valid(table) {
        return Err(Refusal::TableDamaged);
    }
    if !codes::operations::is_begun(operation) {
        return Err(Refusal::NotListed);
    }
    let entry = table::lowest_closed(table).ok_or(Refusal::NoValueFree)?;
    if !parameters::suits::suits_invoke_written(operation, p) {
        return Err(Refusal::WrongParameter);
    }
    if 255 < p.len() {
        return Err(Refusal::MessageTooLong);
    }
    length_refusal(sending::register_length(p.len()), room)?;
    Ok(Going {
        entry,
        change: Change::Adds {
            ours: true, // the first of ours
            id,
            operation,
        },
        operation,
    })
}

#[tactic(auto, unfolding(crate::specs::Calls::send_invoke, crate::specs::Calls::fitting), using(crate::proofs::Lengths::call_steps))]
pub fn decide_invoke(
    table: &[u8],
    room: usize,
    flag: u8,
    value: u8,
    operation: u8,
    id: i8,
    p: &[u8],
) -> Result<Going, Refusal>
    ensures { DecidesInvoke table.now room flag value operation id p.now result }
{
    if !table::is_valid(table) {
        return Err(Refusal::TableDamaged);
    }
    if !codes::operations::is_begun(operation) {
        return Err(Refusal::NotListed);
    }
    let entry = find_open(table, flag, value).ok_or(Refusal::NotOpen)?;
    let slot = table::read_entry(table, entry);
    let own = slot.own;
    if sides::is_full(own) | sides::is_among(id, own) {
        return Err(Refusal::StillWaiting); // four of ours wait, or one with this id
    }
    if !parameters::suits::suits_invoke_written(operation, p) {
        return Err(Refusal::WrongParameter);
    }
    if 255 < p.len() {
        return Err(Refusal::MessageTooLong);
    }
    length_refusal(sending::facility_length(p.len()), room)?;
    Ok(Going {
        entry,
        change: Change::Adds {
            ours: true, // behind the others
            id,
            operation,
        },
        operation,
    })
}

#[tactic(auto, unfolding(crate::specs::Calls::send_result, crate::specs::Calls::fitting), using(crate::proofs::Lengths::call_steps))]
pub fn decide_result(
    table: &[u8],
    room: usize,
    flag: u8,
    value: u8,
    id: i8,
    p: &[u8],
) -> Result<Going, Refusal>
    ensures { DecidesResult table.now room flag value id p.now result }
{
    if !table::is_valid(table) {
        return Err(Refusal::TableDamaged);
    }
    let entry = find_open(table, flag, value).ok_or(Refusal::NotOpen)?;
    let slot = table::read_entry(table, entry);
    let answered = sides::operation_of(id, slot.peer).ok_or(Refusal::NoSuchInvoke)?;
    if !parameters::suits::suits_result_written(answered, p) {
        return Err(Refusal::WrongParameter); // parameter of the result
    }
    if 255 < p.len() {
        return Err(Refusal::MessageTooLong);
    }
    length_refusal(sending::facility_answer_length(p.len()), room)?;
    Ok(Going {
        entry,
        change: Change::Clears {
            ours: false, // answered by a result
            id,
        },
        operation: answered,
    })
}

#[tactic(auto, unfolding(crate::specs::Calls::send_error, crate::specs::Calls::fitting), using(crate::proofs::Lengths::call_steps))]
pub fn decide_error(
    table: &[u8],
    room: usize,
    flag: u8,
    value: u8,
    id: i8,
    code: u8,
    p: &[u8],
) -> Result<Going, Refusal>
    ensures { DecidesError table.now room flag value id code p.now result }
{
    if !table::is_valid(table) {
        return Err(Refusal::TableDamaged);
    }
    if !codes::errors::is_listed(code) {
        return Err(Refusal::NotListed); // error code not listed
    }
    let entry = find_open(table, flag, value).ok_or(Refusal::NotOpen)?;
    let slot = table::read_entry(table, entry);
    if !sides::is_among(id, slot.peer) {
        return Err(Refusal::NoSuchInvoke);
    }
    if !parameters::suits::is_none_or_one(p) {
        return Err(Refusal::WrongParameter);
    }
    if 255 < p.len() {
        return Err(Refusal::MessageTooLong);
    }
    length_refusal(sending::facility_length(p.len()), room)?;
    Ok(Going {
        entry,
        change: Change::Clears {
            ours: false, // answered by an error
            id,
        },
        operation: 0,
    })
}

#[tactic(auto, unfolding(crate::specs::Calls::send_release, crate::specs::Calls::fitting), using(crate::proofs::Lengths::call_steps))]
pub fn decide_release(table: &[u8], room: usize, flag: u8, value: u8) -> Result<Going, Refusal>
    ensures { DecidesRelease table.now room flag value result }
{
    if !table::is_valid(table) {
        return Err(Refusal::TableDamaged);
    }
    let entry = find_open(table, flag, value).ok_or(Refusal::NotOpen)?;
    if room < 2 {
        return Err(Refusal::BufferTooShort);
    }
    Ok(Going {
        entry,
        change: Change::Closes,
        operation: 0,
    })
}
