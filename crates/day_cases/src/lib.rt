// Tests of the session and the day, in tables.
#![tactic(auto)]

#[cfg(test)]
mod days;
#[cfg(test)]
mod making;
#[cfg(test)]
mod quotes;
#[cfg(test)]
mod sessions;
#[cfg(test)]
mod stores;
#[cfg(test)]
mod unlawful;
