// Rules of precedence, and lists of entries that stand in precedence.
#![tactic(auto)]

pub mod list;
pub mod rules;
