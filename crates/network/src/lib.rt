// Messages between boards, and the networks that carry them.
#![tactic(auto)]

pub mod fault;
pub mod lanes;
pub mod laws;
pub mod message;
pub mod network;
pub mod open_bus;
pub mod queue;
pub mod readiness;
