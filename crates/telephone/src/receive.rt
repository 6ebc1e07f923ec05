// A received message.
ghost use Rattle.std.specs.Prelude.{◌≡◌, true, false, ◌+◌, ◌<◌, length, drop};
ghost use Rattle.octets.specs.Part.{place_at};
ghost use Rattle.octets.specs.Seen.{part_found, PartWithin};
ghost use Rattle.table.specs.Table.{entries, closed, entry_at, valid, with_entry};
ghost use Rattle.deciding.specs.Steps.{picked_entry};
ghost use Rattle.deciding.specs.Seen.{told_seen, ToldWithin, decision_seen, DecisionWithin, is_silent, Ready, Keeps};
ghost use Rattle.telephone.specs.Receive.{act, receive};
ghost use Rattle.telephone.specs.Stands.{IsShownParameter, shown_start};
ghost use Rattle.telephone.specs.FromC.{shown_as, received_of, without_cause, ActedAs};

use deciding::{Act, Decision, Told};
use octets::Span;
use showing::{CauseView, ComponentView, TextView};
use table::Change;

// The verdict, or the refusal 27 or 28; how many octets of the reply are written; and what is shown.
#[repr(C)]
#[derive(Clone, Copy)]
pub struct Received {
    pub code: u8,
    pub written: usize,
    pub shown: ComponentView,
    pub text: TextView,
    pub cause: CauseView,
}

// What is shown, with the numbers of the call.
#[tactic(auto, unfolding(showing::specs::Views::component_view, showing::specs::Views::text_view))]
fn show(s: &[u8], code: u8, written: usize, told: Option<Told>, cause: Option<Span>) -> Received
    requires { ToldWithin s.now told × PartWithin s.now cause }
    ensures { result ≡ shown_as (2 + length s.now) code written (told_seen s.now told) (part_found s.now cause) }
{
    let cause = showing::cause_view(s, cause);
    let Some(Told { shown, end, text }) = told else {
        return Received {
            code,
            written,
            shown: showing::no_component(),
            text: showing::no_text(),
            cause,
        };
    };
    Received {
        code,
        written,
        shown: showing::component_view(s, shown, end),
        text: showing::text_view(s, shown, end, text),
        cause,
    }
}

// Closes an entry.
fn close(table: &mut [u8], k: u8)
    requires { (valid table.old ≡ true) × (k < entries) }
    ensures { table.new ≡ with_entry table.old k closed }
{
    table::change_entry(table, k, Change::Closes);
}

// What is done: the verdict or the refusal, how many octets are written, and where the cause stands.
#[derive(Clone, Copy)]
pub struct Acted {
    pub code: u8,
    pub written: usize,
    pub cause: Option<Span>,
}

// What is done without a cause.
fn done(code: u8, written: usize) -> Acted
    ensures { result ≡ without_cause code written }
{
    Acted {
        code,
        written,
        cause: None,
    }
}

// The table of verdicts: what is sent, and what becomes of the entry.
#[tactic(auto, unfolding(crate::specs::Receive::act), using(crate::proofs::Paths::splice_none))]
fn act(table: &mut [u8], message: &[u8], reply: &mut [u8], decision: Decision) -> Acted
    requires { (is_silent decision ≡ false → Ready table.old message.now (length reply.old)) × (DecisionWithin (drop 2 message.now) decision × Keeps (entry_at table.old (picked_entry message.now)) (decision_seen (drop 2 message.now) decision)) }
    ensures returned { ActedAs (drop 2 message.now) result (act table.old message.now reply.old (decision_seen (drop 2 message.now) decision)) }
    ensures reply { reply.new ≡ (act table.old message.now reply.old (decision_seen (drop 2 message.now) decision)).buffer }
    ensures table { table.new ≡ (act table.old message.now reply.old (decision_seen (drop 2 message.now) decision)).table }
{
    let k = deciding::picked_entry(message);
    let first = deciding::reply_first(message);
    match decision.act {
        Act::Silent(silence) => done(silence.number(), 0),
        Act::WithCause(cause) => {
            let written = sending::put_release_cause(reply, first, cause.number());
            close(table, k);
            done(2, written)
        }
        Act::WithReject { id, problem } => {
            let written = sending::put_release_reject(
                reply,
                first,
                id,
                problem.tag(),
                problem.number(),
            );
            close(table, k);
            done(3, written)
        }
        Act::OnReject => {
            let written = sending::put_release(reply, first);
            close(table, k);
            done(4, written)
        }
        Act::Released(cause) => {
            close(table, k);
            Acted {
                code: 5,
                written: 0,
                cause,
            }
        }
        Act::Taken(change) => {
            table::change_entry(table, k, change);
            done(0, 0)
        }
    }
}

// A message of any length and content, in any state of the table, gets its one verdict.
pub fn smr_receive(table: &mut [u8], message: &[u8], reply: &mut [u8]) -> Received
    ensures returned { result ≡ received_of (length message.now) (receive table.old message.now reply.old) }
    ensures reply { reply.new ≡ (receive table.old message.now reply.old).buffer }
    ensures table { table.new ≡ (receive table.old message.now reply.old).table }
{
    let decision = deciding::decide(table, message, reply.len());
    let acted = act(table, message, reply, decision);
    let s = octets::part(message, 2, message.len());
    show(s, acted.code, acted.written, decision.told, acted.cause)
}

// The parameter of the component that a message shows, as a part of the caller's own message.
pub fn shown_parameter(message: &[u8], received: Received) -> &[u8]
    ensures octets { IsShownParameter message.now received result.now }
    ensures place { result.ref_ptr ≡ place_at (shown_start message.now received) message.entry.ref_ptr }
{
    let parameter = received.shown.parameter;
    octets::part(message, parameter.start, parameter.end)
}
