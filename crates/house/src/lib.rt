// The house: the state in which all offices of one forwarder work, over any shelf and any kind of value.
#![tactic(auto)]

pub mod archiving;
pub mod call;
pub mod fault;
pub mod house;
pub mod questions;
pub mod reading;
pub mod slip;
