// Text for a display of forty cells, written into a lent page or put on a page of its own.
#![tactic(auto)]

pub mod lines;
pub mod numbers;
pub mod page;
pub mod text;
