// A trace as lines: the records of a block, a refusal, a list of what was dropped, and lines that tell records.
#![tactic(auto)]

pub mod book;
pub mod listed;
pub mod shown;
pub mod told;
