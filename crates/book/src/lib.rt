// The memory that a caller lends to a session, and what is done with each part of it.
#![tactic(auto)]

pub mod duties;
pub mod lawful;
pub mod limits;
pub mod memory;
pub mod quotes;
