// Ids, operations and error codes: what the octets of a component say.
#![tactic(auto)]

pub mod errors;
pub mod ids;
pub mod operations;
pub mod refusals;
