// A session in whichever phase it is, runs of events with their guarantee, and a day that goes by records.
#![tactic(auto)]

pub mod days;
pub mod faults;
pub mod rulings;
pub mod running;
pub mod runs;
pub mod stages;
