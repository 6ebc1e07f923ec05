// Parameters: what they hold, and which operation takes which.
#![tactic(auto)]

pub mod kinds;
pub mod one;
pub mod suits;
pub mod text;
