// Tests of the other crates, in tables.
#![tactic(auto)]

#[cfg(test)]
mod event_records;
#[cfg(test)]
mod lists;
#[cfg(test)]
mod tables;
#[cfg(test)]
mod tape_records;
