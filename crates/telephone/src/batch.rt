// Recorded messages, fed one by one.
ghost use Rattle.std.specs.Prelude.{◌≡◌, ◌+◌, ◌≤◌, length, drop};
ghost use Rattle.codes.specs.Refusals.{number_of};
ghost use Rattle.octets.specs.Part.{place_at};
ghost use Rattle.octets.specs.Reader.{took};
ghost use Rattle.octets.specs.Splice.{splice};
ghost use Rattle.records.specs.Records.{one_record};
ghost use Rattle.telephone.specs.Batch.{fed, slot_length, slot, batch};
ghost use Rattle.telephone.specs.FromC.{batched_of, refused_batch};
ghost use Rattle.telephone.specs.Feeding.{IsRecord, CanFeed, FedOutput, FedTable};

use crate::receive::smr_receive;
use codes::refusals::Refusal;

// 0 or the number of the refusal; how many slots are written.
#[repr(C)]
#[derive(Clone, Copy)]
pub struct Batched {
    pub code: u8,
    pub slots: usize,
}

// The message of the record at the front, as a part of the caller's own records.
fn message_at(records: &[u8]) -> &[u8]
    requires { IsRecord records.now }
    ensures octets { one_record records.now ≡ took result.now (drop (1 + length result.now) records.now) }
    ensures place { result.ref_ptr ≡ place_at 1 records.entry.ref_ptr }
{
    let n = records[0] as usize;
    &records[1..1 + n]
}

// Receives a message, and fills the slot at a place.
fn fill_slot(table: &mut [u8], message: &[u8], output: &mut [u8], at: usize)
    requires { at + slot_length ≤ length output.old }
    ensures output { output.new ≡ splice output.old at (slot (fed table.old message.now)) }
    ensures table { table.new ≡ (fed table.old message.now).table }
{
    let mut reply = [0u8; 12];
    let received = smr_receive(table, message, &mut reply);
    output[at] = received.code;
    output[at + 1] = received.written as u8;
    octets::put(output, at + 2, &reply);
}

// A slot for each record, in a table and an output that were looked at before.
fn feed(table: &mut [u8], records: &[u8], output: &mut [u8])
    requires { CanFeed records.now (length output.old) }
    ensures output { FedOutput table.old records.now output.old output.new }
    ensures table { FedTable table.old records.now table.new }
{
    let mut rest = records;
    let mut at = 0; // a slot is told by its place: the output is lent on as a whole
    while !rest.is_empty() {
        let message = message_at(rest);
        fill_slot(table, message, output, at);
        rest = &rest[1 + message.len()..];
        at += 14;
    }
}

fn refused(refusal: Refusal) -> Batched
    ensures { result ≡ refused_batch (number_of refusal) }
{
    Batched {
        code: refusal.number(),
        slots: 0,
    }
}

// All records are looked at before any is fed: a refused batch changes nothing.
pub fn smr_batch(table: &mut [u8], records: &[u8], output: &mut [u8]) -> Batched
    ensures returned { result ≡ batched_of (batch table.old records.now output.old) }
    ensures output { output.new ≡ (batch table.old records.now output.old).output }
    ensures table { table.new ≡ (batch table.old records.now output.old).table }
{
    if !table::is_valid(table) {
        return refused(Refusal::TableDamaged);
    }
    let Some(n) = records::count_records(records) else {
        return refused(Refusal::BadRecord);
    };
    if output.len() / 14 < n {
        return refused(Refusal::OutputTooShort);
    }
    feed(table, records, output);
    Batched { code: 0, slots: n }
}
