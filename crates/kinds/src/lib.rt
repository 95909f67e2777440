// Content kinds: what a block of the house can hold, as a type and as bytes.
#![tactic(auto)]

pub mod fault;
pub mod kind;
pub mod laws;
pub mod round;
pub mod row;
pub mod valve;
