// What C calls of the telephone: a received message, the five local calls, and recorded messages, each as the library does it.
#![tactic(auto)]

ghost use Rattle.std.specs.Prelude.{◌≡◌, length};
ghost use Rattle.telephone.specs.Receive.{receive};
ghost use Rattle.telephone.specs.Calls.{begin, invoke_within, result as result_call, error, release};
ghost use Rattle.telephone.specs.Batch.{batch};
ghost use Rattle.telephone.specs.FromC.{received_of, called_of, batched_of};

use telephone::batch::Batched;
use telephone::calls::Called;
use telephone::receive::Received;

// A message of any length and content, in any state of the table, gets its one verdict.
#[unsafe(no_mangle)]
pub extern "C" fn smr_receive(table: &mut [u8], message: &[u8], reply: &mut [u8]) -> Received
    ensures returned { result ≡ received_of (length message.now) (receive table.old message.now reply.old) }
    ensures reply { reply.new ≡ (receive table.old message.now reply.old).buffer }
    ensures table { table.new ≡ (receive table.old message.now reply.old).table }
{
    telephone::receive::smr_receive(table, message, reply)
}

// A refused call writes nothing and changes no transaction.
#[unsafe(no_mangle)]
pub extern "C" fn smr_begin(
    table: &mut [u8],
    operation: u8,
    id: i8,
    parameter: &[u8],
    buffer: &mut [u8],
) -> Called
    ensures returned { result ≡ called_of (begin table.old buffer.old operation id parameter.now) }
    ensures buffer { buffer.new ≡ (begin table.old buffer.old operation id parameter.now).buffer }
    ensures table { table.new ≡ (begin table.old buffer.old operation id parameter.now).table }
{
    telephone::calls::smr_begin(table, operation, id, parameter, buffer)
}

#[unsafe(no_mangle)]
pub extern "C" fn smr_invoke(
    table: &mut [u8],
    flag: u8,
    value: u8,
    operation: u8,
    id: i8,
    parameter: &[u8],
    buffer: &mut [u8],
) -> Called
    ensures returned { result ≡ called_of (invoke_within table.old buffer.old flag value operation id parameter.now) }
    ensures buffer { buffer.new ≡ (invoke_within table.old buffer.old flag value operation id parameter.now).buffer }
    ensures table { table.new ≡ (invoke_within table.old buffer.old flag value operation id parameter.now).table }
{
    telephone::calls::smr_invoke(table, flag, value, operation, id, parameter, buffer)
}

#[unsafe(no_mangle)]
pub extern "C" fn smr_result(
    table: &mut [u8],
    flag: u8,
    value: u8,
    id: i8,
    parameter: &[u8],
    buffer: &mut [u8],
) -> Called
    ensures returned { result ≡ called_of (result_call table.old buffer.old flag value id parameter.now) }
    ensures buffer { buffer.new ≡ (result_call table.old buffer.old flag value id parameter.now).buffer }
    ensures table { table.new ≡ (result_call table.old buffer.old flag value id parameter.now).table }
{
    telephone::calls::smr_result(table, flag, value, id, parameter, buffer)
}

#[unsafe(no_mangle)]
pub extern "C" fn smr_error(
    table: &mut [u8],
    flag: u8,
    value: u8,
    id: i8,
    code: u8,
    parameter: &[u8],
    buffer: &mut [u8],
) -> Called
    ensures returned { result ≡ called_of (error table.old buffer.old flag value id code parameter.now) }
    ensures buffer { buffer.new ≡ (error table.old buffer.old flag value id code parameter.now).buffer }
    ensures table { table.new ≡ (error table.old buffer.old flag value id code parameter.now).table }
{
    telephone::calls::smr_error(table, flag, value, id, code, parameter, buffer)
}

#[unsafe(no_mangle)]
pub extern "C" fn smr_release(table: &mut [u8], flag: u8, value: u8, buffer: &mut [u8]) -> Called
    ensures returned { result ≡ called_of (release table.old buffer.old flag value) }
    ensures buffer { buffer.new ≡ (release table.old buffer.old flag value).buffer }
    ensures table { table.new ≡ (release table.old buffer.old flag value).table }
{
    telephone::calls::smr_release(table, flag, value, buffer)
}

// All records are looked at before any is fed: a refused batch changes nothing.
#[unsafe(no_mangle)]
pub extern "C" fn smr_batch(table: &mut [u8], records: &[u8], output: &mut [u8]) -> Batched
    ensures returned { result ≡ batched_of (batch table.old records.now output.old) }
    ensures output { output.new ≡ (batch table.old records.now output.old).output }
    ensures table { table.new ≡ (batch table.old records.now output.old).table }
{
    telephone::batch::smr_batch(table, records, output)
}
