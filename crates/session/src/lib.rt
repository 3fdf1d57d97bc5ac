// One session, from its making to its close. Its phases are types, and the caller lends the memory at each call.
#![tactic(auto)]

mod accepting;
mod before_bell;
mod events;
pub mod ledger;
pub mod making;
mod refusing;
pub mod states;
mod taking;
mod trading;
