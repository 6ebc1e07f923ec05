// What is printed of a received message, of a call and of a batch, put on a page.
#![tactic(auto)]

mod felt;
pub mod shown;
pub mod slots;
mod verdicts;
