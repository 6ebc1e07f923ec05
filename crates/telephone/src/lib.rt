// The telephone: a received message or a local call, decided first and then acted on; and recorded messages, one by one. C calls
// them through telephone_c.
#![tactic(auto)]

pub mod batch;
pub mod calls;
pub mod receive;
