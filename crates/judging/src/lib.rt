// Step 6: a component held against the entry of its transaction.
#![tactic(auto)]

ghost use Rattle.std.specs.Prelude.{◌≡◌};
ghost use Rattle.places.specs.Seen.{id_seen};
ghost use Rattle.components.specs.Component.{invoke, result as result_read};
ghost use Rattle.components.specs.Seen.{operation_seen};
ghost use Rattle.sides.specs.Seen.{side_seen};
ghost use Rattle.table.specs.Seen.{slot_seen, change_seen};
ghost use Rattle.judging.specs.StepSix.{judge_invoke, judge_result, judge_error, linked_problem, kept};
ghost use Rattle.judging.specs.Seen.{Judges, JudgesError, JudgesLinked};

use parameters::text::Ussd;
use places::problems::Problem;
use table::{Change, Slot};

// What is accepted comes with the change of its entry, and the text that was read.
#[derive(Clone, Copy)]
pub struct Accepted {
    pub change: Change,
    pub text: Option<Ussd>,
}

// A linked id held against our outstanding invokes.
#[tactic(auto, using(crate::proofs::Paths::asked), unfolding(crate::specs::StepSix::linked_problem))]
fn judge_linked(own: u64, linked: Option<i8>, operation: u8) -> Result<(), Problem>
    ensures { JudgesLinked (linked_problem (side_seen own) (id_seen linked) operation) result }
{
    let Some(id) = linked else {
        return Ok(());
    };
    let waiting = sides::operation_of(id, own).ok_or(Problem::UnrecognizedLinked)?;
    if waiting != 17 {
        return Err(Problem::UnexpectedLinkedResponse);
    }
    if operation != 18 {
        return Err(Problem::UnexpectedLinkedOperation);
    }
    Ok(())
}

// The invoke that was taken waits behind the others; one that has no answer is not kept.
fn kept(id: i8, operation: u8) -> Change
    ensures { change_seen result ≡ kept id operation }
{
    if codes::operations::is_waited_for(operation) {
        return Change::Adds {
            ours: false,
            id,
            operation,
        };
    }
    Change::Opens
}

// An Invoke.
#[tactic(auto, using(crate::proofs::Paths::asked), unfolding(crate::specs::StepSix::judge_invoke))]
pub fn judge_invoke(
    slot: Slot,
    id: i8,
    linked: Option<i8>,
    operation: u8,
    p: &[u8],
) -> Result<Accepted, Problem>
    ensures { Judges (judge_invoke (slot_seen slot) id (id_seen linked) operation p.now) (invoke id (id_seen linked) operation p.now) result }
{
    if sides::is_among(id, slot.peer) {
        return Err(Problem::DuplicateInvoke);
    }
    if sides::is_full(slot.peer) {
        return Err(Problem::ResourceLimit);
    }
    if !codes::operations::is_served(operation) {
        return Err(Problem::UnrecognizedOperation);
    }
    judge_linked(slot.own, linked, operation)?;
    let Ok(text) = parameters::suits::suits_invoke_received(operation, p) else {
        return Err(Problem::MistypedInvoke);
    };
    Ok(Accepted {
        change: kept(id, operation),
        text,
    })
}

// A Return result. One without its operation is told with no text.
#[tactic(auto, using(crate::proofs::Paths::asked), unfolding(crate::specs::StepSix::judge_result, crate::specs::StepSix::is_ours))]
pub fn judge_result(
    slot: Slot,
    id: i8,
    operation: Option<u8>,
    p: &[u8],
) -> Result<Accepted, Problem>
    ensures { Judges (judge_result (slot_seen slot) id (operation_seen operation) p.now) (result_read id (operation_seen operation) p.now) result }
{
    let ours = sides::operation_of(id, slot.own).ok_or(Problem::UnrecognizedResult)?;
    if !operation.is_none_or(|told| told == ours) {
        return Err(Problem::MistypedResult);
    }
    let Ok(text) = parameters::suits::suits_result_received(ours, p) else {
        return Err(Problem::MistypedResult);
    };
    Ok(Accepted {
        change: Change::Clears {
            ours: true, // the result's
            id,
        },
        text: operation.and(text),
    })
}

// A Return error.
#[tactic(auto, using(crate::proofs::Paths::asked), unfolding(crate::specs::StepSix::judge_error))]
pub fn judge_error(slot: Slot, id: i8, code: u8) -> Result<Accepted, Problem>
    ensures { JudgesError (judge_error (slot_seen slot) id code) id code result }
{
    let asked = sides::operation_of(id, slot.own).ok_or(Problem::UnrecognizedErrorId)?;
    if !codes::errors::is_listed(code) {
        return Err(Problem::UnrecognizedError);
    }
    if !codes::errors::may_return(asked, code) {
        return Err(Problem::UnexpectedError);
    }
    Ok(Accepted {
        change: Change::Clears {
            ours: true, // the error's
            id,
        },
        text: None,
    })
}
