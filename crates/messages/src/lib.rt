// Messages: the first two octets, the mandatory part, the scan of information elements.
#![tactic(auto)]

pub mod layout;
pub mod scan;
