// Components: what a Facility value says.
#![tactic(auto)]

pub mod facility;
pub mod kinds;
pub mod shown;
