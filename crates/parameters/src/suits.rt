// Which parameter an operation takes, in each of the places where a parameter stands.
ghost use Rattle.std.specs.Prelude.{◌≡◌};
ghost use Rattle.parameters.specs.Suits.{none_or_one, none_or_ussd, suits, InvokeWritten, ResultWritten};
ghost use Rattle.parameters.specs.Seen.{without_text, TellsText, TellsInvoke, TellsResult};

use super::text::Ussd;

// A received parameter that does not suit its operation.
#[derive(Clone, Copy, Debug, PartialEq, Eq)]
pub struct Unsuited;

// The parameter of an error.
pub fn is_none_or_one(p: &[u8]) -> bool
    ensures { result ≡ none_or_one p.now }
{
    p.is_empty() || super::one::is_one(p)
}

fn is_none_or_ussd(p: &[u8]) -> bool
    ensures { result ≡ none_or_ussd p.now }
{
    p.is_empty() || super::kinds::is_ussd(p)
}

// Whether a parameter that holds no text suits.
fn without_text(suited: bool) -> Result<Option<Ussd>, Unsuited>
    ensures { result ≡ without_text suited }
{
    if suited { Ok(None) } else { Err(Unsuited) }
}

// A parameter that should be a text.
fn read_text(p: &[u8]) -> Result<Option<Ussd>, Unsuited>
    ensures { TellsText p.now result }
{
    let text = super::text::read_ussd(p).ok_or(Unsuited)?;
    Ok(Some(text))
}

// An invoke that is received: its text, where one is looked for.
#[tactic(auto, unfolding(crate::specs::Suits::suits, crate::specs::Suits::suits_invoke_received))]
pub fn suits_invoke_received(operation: u8, p: &[u8]) -> Result<Option<Ussd>, Unsuited>
    ensures { TellsInvoke operation p.now result }
{
    match operation {
        18 => without_text(super::kinds::is_guidance(p)),
        60 | 61 => read_text(p),
        38 => without_text(p.is_empty()),
        _ => Err(Unsuited),
    }
}

// A result that is received, and its text, where one is looked for; the operation is the one that waits.
#[tactic(auto, using(crate::proofs::Paths::no_text), unfolding(crate::specs::Suits::suits, crate::specs::Suits::suits_result_received))]
pub fn suits_result_received(operation: u8, p: &[u8]) -> Result<Option<Ussd>, Unsuited>
    ensures { TellsResult operation p.now result }
{
    match operation {
        17 => without_text(super::kinds::is_password(p)),
        59 if p.is_empty() => Ok(None),
        59 => read_text(p),
        10..=14 => without_text(is_none_or_one(p)),
        _ => Err(Unsuited),
    }
}

// An invoke that we write.
#[tactic(auto, unfolding(crate::specs::Suits::suits, crate::specs::Suits::suits_invoke_written))]
pub fn suits_invoke_written(operation: u8, p: &[u8]) -> bool
    ensures { result ≡ suits InvokeWritten operation p.now }
{
    match operation {
        10 => super::one::is_one(p),
        11..=14 => super::kinds::is_ss_for_bs(p),
        17 => super::kinds::is_service_code(p),
        59 => super::kinds::is_ussd(p),
        _ => false,
    }
}

// A result that we write; the operation is the one that it answers.
#[tactic(auto, unfolding(crate::specs::Suits::suits, crate::specs::Suits::suits_result_written))]
pub fn suits_result_written(operation: u8, p: &[u8]) -> bool
    ensures { result ≡ suits ResultWritten operation p.now }
{
    match operation {
        18 => super::kinds::is_password(p),
        60 => is_none_or_ussd(p),
        61 => p.is_empty(),
        _ => false,
    }
}
