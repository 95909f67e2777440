// A week's contents as messages over a network, taken in different orders.
#![tactic(auto)]

pub mod compare;
pub mod cross;
pub mod crossing;
mod receive;
pub mod report;
mod send;
