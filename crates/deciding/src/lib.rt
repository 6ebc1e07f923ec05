// What a received message is found to be: the steps in order, and nothing written.
#![tactic(auto)]

ghost use Rattle.std.specs.Prelude.{◌≡◌, false, ◌≤◌, ◌<◌, length, take, drop};
ghost use Rattle.octets.specs.Part.{between};
ghost use Rattle.components.specs.Facility.{facility};
ghost use Rattle.components.specs.Seen.{shown_seen, parameter_length};
ghost use Rattle.messages.specs.Layout.{value};
ghost use Rattle.messages.specs.Scan.{first_taken};
ghost use Rattle.table.specs.Table.{Entry};
ghost use Rattle.table.specs.Seen.{slot_seen};
ghost use Rattle.judging.specs.Seen.{judgement_seen, JudgementText};
ghost use Rattle.deciding.specs.Decision.{released};
ghost use Rattle.deciding.specs.Numbers.{silence_number, cause_number};
ghost use Rattle.deciding.specs.Steps.{first_octet, picked_entry, reply_first, on_judged, step_six, five_and_six, four_to_six, except_invoke, on_release, decide};
ghost use Rattle.deciding.specs.Seen.{told_seen, ToldWithin, Decides, CourseSeen, shows_nothing, is_silent, from_type, from_entry, Ready};

use codes::refusals::Refusal;
use components::facility::Unread;
use components::shown::Shown;
use judging::Accepted;
use messages::layout::MessageType;
use octets::Span;
use parameters::text::Ussd;
use places::problems::Problem;
use table::{Change, Slot};

// A component that is shown, where its Facility value ends, and the text that it carries.
#[derive(Clone, Copy)]
pub struct Told {
    pub shown: Shown,
    pub end: usize,
    pub text: Option<Ussd>,
}

// Why nothing is sent and nothing changes.
#[derive(Clone, Copy, Debug, PartialEq, Eq)]
pub enum Silence {
    Ignored,
    TooLong,
    OtherProtocol,
    Refused(Refusal),
}

impl Silence {
    // The verdict, or the refusal.
    pub fn number(self) -> u8
        ensures { result ≡ silence_number self }
    {
        match self {
            Silence::Ignored => 1,
            Silence::TooLong => 6,
            Silence::OtherProtocol => 7,
            Silence::Refused(refusal) => refusal.number(),
        }
    }
}

// The causes that we release with.
#[derive(Clone, Copy, Debug, PartialEq, Eq)]
pub enum Cause {
    FacilityRejected,
    InvalidTransaction,
    InvalidMandatory,
    UnknownType,
    WrongState,
}

impl Cause {
    pub fn number(self) -> u8
        ensures { result ≡ cause_number self }
    {
        match self {
            Cause::FacilityRejected => 29,
            Cause::InvalidTransaction => 81,
            Cause::InvalidMandatory => 96,
            Cause::UnknownType => 97,
            Cause::WrongState => 98,
        }
    }
}

// One verdict's case each, and what is needed to act on it.
#[derive(Clone, Copy)]
pub enum Act {
    Silent(Silence),
    WithCause(Cause),
    WithReject { id: Option<i8>, problem: Problem },
    OnReject,
    Released(Option<Span>),
    Taken(Change),
}

// The case, and what is shown: nothing, where the case shows nothing.
#[derive(Clone, Copy)]
pub struct Decision {
    pub act: Act,
    pub told: Option<Told>,
}

// A decision that shows nothing.
fn untold(act: Act) -> Decision
    ensures { result ≡ shows_nothing act }
{
    Decision { act, told: None }
}

// Step 6's answer. The octets are handed on here, in except_invoke and in release for what is promised of them.
#[tactic(auto, using(crate::proofs::Paths::weighing))]
fn rule(
    s: &[u8],
    judgement: Result<Accepted, Problem>,
    id: i8,
    shown: Shown,
    end: usize,
) -> Decision
    requires { ((parameter_length shown ≤ end) × (end ≤ length s.now)) × JudgementText (shown_seen (take end s.now) shown) judgement }
    ensures decides { Decides (on_judged (judgement_seen judgement) id (shown_seen (take end s.now) shown) (drop end s.now)) s.now result }
{
    match judgement {
        Err(problem) => untold(Act::WithReject {
            id: Some(id),
            problem,
        }),
        Ok(accepted) => Decision {
            act: Act::Taken(accepted.change),
            told: Some(Told {
                shown,
                end,
                text: accepted.text,
            }),
        },
    }
}

// Step 6: the component against its entry.
#[tactic(auto, using(crate::proofs::Paths::weighing), unfolding(crate::specs::Steps::step_six))]
fn weigh_component(slot: Slot, shown: Shown, s: &[u8], end: usize) -> Decision
    requires { (parameter_length shown ≤ end) × (end ≤ length s.now) }
    ensures decides { Decides (step_six (slot_seen slot) (shown_seen (take end s.now) shown) (drop end s.now)) s.now result }
{
    let p = &s[end - shown.parameter_length()..end];
    match shown {
        Shown::Invoke {
            id,
            linked,
            operation,
            ..
        } => {
            let judgement = judging::judge_invoke(slot, id, linked, operation, p);
            rule(s, judgement, id, shown, end)
        }
        Shown::Result { id, operation, .. } => {
            let judgement = judging::judge_result(slot, id, operation, p);
            rule(s, judgement, id, shown, end)
        }
        Shown::Error { id, code, .. } => {
            let judgement = judging::judge_error(slot, id, code);
            rule(s, judgement, id, shown, end)
        }
        Shown::Reject { .. } => Decision {
            act: Act::OnReject,
            told: Some(Told {
                shown,
                end,
                text: None,
            }),
        },
    }
}

// Step 5: what the Facility value says.
#[tactic(auto, using(crate::proofs::Paths::weighing), unfolding(crate::specs::Steps::five_and_six))]
fn weigh(slot: Slot, s: &[u8], value: Span) -> Decision
    requires { (value.start ≤ value.end) × (value.end ≤ length s.now) }
    ensures decides { Decides (five_and_six (slot_seen slot) (facility (between value.start value.end s.now)) (drop value.end s.now)) s.now result }
{
    match components::facility::read_facility(&s[value.start..value.end]) {
        Ok(None) => untold(Act::Taken(Change::Opens)),
        Ok(Some(shown)) => weigh_component(slot, shown, s, value.end),
        Err(Unread::General { problem, id }) => untold(Act::WithReject { id, problem }),
        Err(Unread::LeftOver) => untold(Act::WithCause(Cause::FacilityRejected)),
        Err(Unread::FaultyReject) => untold(Act::OnReject),
    }
}

// A RELEASE COMPLETE shows no Invoke.
fn except_invoke(s: &[u8], told: Option<Told>) -> Option<Told>
    requires { ToldWithin s.now told }
    ensures shows { told_seen s.now result ≡ except_invoke (told_seen s.now told) }
    ensures within { ToldWithin s.now result }
{
    let found = told?;
    if matches!(found.shown, Shown::Invoke { .. }) {
        return None;
    }
    told
}

// RELEASE COMPLETE of an open entry, with what its Facility value was weighed to show.
fn release(s: &[u8], told: Option<Told>) -> Decision
    requires { ToldWithin s.now told }
    ensures decides { Decides (released (except_invoke (told_seen s.now told)) (first_taken 0x08 s.now)) s.now result }
{
    Decision {
        act: Act::Released(messages::scan::find(s, 0x08)),
        told: except_invoke(s, told),
    }
}

// A Facility value that steps 2 to 4 leave to be weighed; that of a RELEASE COMPLETE is only shown.
#[derive(Clone, Copy)]
pub struct Course {
    pub value: Span,
    pub release: bool,
}

// Step 4: the mandatory part and what must be understood, for REGISTER and FACILITY.
#[tactic(auto, using(crate::proofs::Paths::steps), unfolding(crate::specs::Steps::four_to_six))]
fn course_required(s: &[u8], kind: u8) -> Result<Course, Act>
    ensures { (e : Entry) → CourseSeen e s.now result (four_to_six e kind s.now) }
{
    let Some(value) = messages::scan::read_required(s, kind) else {
        return Err(Act::WithCause(Cause::InvalidMandatory));
    };
    Ok(Course {
        value,
        release: false,
    })
}

// The Facility value of a RELEASE COMPLETE, if it has one.
#[tactic(auto, using(crate::proofs::Paths::steps), unfolding(crate::specs::Steps::on_release))]
fn course_released(s: &[u8]) -> Result<Course, Act>
    ensures { (e : Entry) → CourseSeen e s.now result (on_release e s.now) }
{
    let Some(value) = messages::scan::find(s, 0x1C) else {
        return Err(Act::Released(messages::scan::find(s, 0x08)));
    };
    Ok(Course {
        value,
        release: true, // only to be shown
    })
}

// Steps 2 and 3, by the message's type and whether the entry is open: a Facility value to be weighed, or how it ends without one.
#[tactic(auto, using(crate::proofs::Paths::steps), unfolding(crate::specs::Seen::from_type))]
fn course_of(slot: Slot, flag: u8, kind: u8, s: &[u8]) -> Result<Course, Act>
    ensures { CourseSeen (slot_seen slot) s.now result (from_type (slot_seen slot) flag kind s.now) }
{
    match MessageType::from(kind) {
        MessageType::ReleaseComplete if slot.open => course_released(s),
        MessageType::ReleaseComplete => Err(Act::Silent(Silence::Ignored)),
        MessageType::Facility if slot.open => course_required(s, 0x3A),
        MessageType::Facility => Err(Act::WithCause(Cause::InvalidTransaction)),
        MessageType::Register if slot.open => Err(Act::WithCause(Cause::WrongState)),
        MessageType::Register if flag == 1 => Err(Act::Silent(Silence::Ignored)), // under our flag
        MessageType::Register => course_required(s, 0x3B),
        MessageType::Unknown => Err(Act::WithCause(Cause::UnknownType)),
    }
}

// Steps 2 to 6. There is one place where a Facility value is weighed, so that it is compiled into its caller.
#[tactic(auto, using(crate::proofs::Paths::steps))]
fn decide_by_type(slot: Slot, flag: u8, kind: u8, s: &[u8]) -> Decision
    ensures decides { Decides (from_type (slot_seen slot) flag kind s.now) s.now result }
{
    match course_of(slot, flag, kind, s) {
        Err(act) => untold(act),
        Ok(course) => {
            let decision = weigh(slot, s, course.value);
            if course.release {
                return release(s, decision.told);
            }
            decision
        }
    }
}

// The first octet; 0 where there is none.
fn first_octet(message: &[u8]) -> u8
    ensures { result ≡ first_octet message.now }
{
    message.first().copied().unwrap_or(0)
}

// The entry that a message's first octet picks.
#[tactic(auto, using(crate::proofs::Paths::steps), unfolding(crate::specs::Steps::picked_entry))]
pub fn picked_entry(message: &[u8]) -> u8
    ensures { result ≡ picked_entry message.now }
{
    let first = first_octet(message);
    let value = messages::layout::value_of(first);
    if messages::layout::flag_of(first) == 1 {
        value
    } else {
        7 + value
    }
}

// The first octet of what is sent in a message's transaction.
#[tactic(auto, using(crate::proofs::Paths::steps), unfolding(crate::specs::Steps::reply_first))]
pub fn reply_first(message: &[u8]) -> u8
    ensures { result ≡ reply_first message.now }
{
    let first = first_octet(message);
    messages::layout::sent_first(
        messages::layout::flag_of(first), // turned by sent_first
        messages::layout::value_of(first),
    )
}

// Step 2: the entry that flag and value pick; value 7 picks none.
#[tactic(auto, using(crate::proofs::Paths::steps))]
fn decide_entry(table: &[u8], message: &[u8]) -> Decision
    requires { 2 ≤ length message.now }
    ensures decides { Decides (from_entry table.now message.now) (drop 2 message.now) result }
    ensures ready { is_silent result ≡ false → value (first_octet message.now) < 7 }
{
    let first = message[0];
    if messages::layout::value_of(first) == 7 {
        return untold(Act::Silent(Silence::Ignored)); // it names none
    }
    let slot = table::read_entry(table, picked_entry(message));
    decide_by_type(
        slot,
        messages::layout::flag_of(first),
        message[1],
        &message[2..],
    )
}

// 28 and 27, then the steps.
#[tactic(auto, using(crate::proofs::Paths::steps), unfolding(crate::specs::Steps::decide, crate::specs::Seen::from_type))]
pub fn decide(table: &[u8], message: &[u8], room: usize) -> Decision
    ensures decides { Decides (decide table.now message.now room) (drop 2 message.now) result }
    ensures ready { is_silent result ≡ false → Ready table.now message.now room }
{
    if !table::is_valid(table) {
        return untold(Act::Silent(Silence::Refused(Refusal::TableDamaged)));
    }
    if room < 12 {
        return untold(Act::Silent(Silence::Refused(Refusal::BufferTooShort)));
    }
    if 255 < message.len() {
        return untold(Act::Silent(Silence::TooLong));
    }
    if message.len() < 2 {
        return untold(Act::Silent(Silence::Ignored));
    }
    if messages::layout::discriminator_of(message[0]) != 11 {
        return untold(Act::Silent(Silence::OtherProtocol));
    }
    decide_entry(table, message)
}
