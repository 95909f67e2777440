// A week's schedule: seven contents of one kind, Monday first, and the release check on it.
#![tactic(auto)]

pub mod check;
pub mod compare;
pub mod day;
pub mod drawing;
pub mod fault;
pub mod reason;
pub mod report;
pub mod verdict;
pub mod week;
