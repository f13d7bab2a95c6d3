// The ledger: which jobs there are, what each has read and written, and what passes between jobs and offices.
// It knows no values: a write is the place of its value on a shelf. This crate is internal to the house above it.
#![tactic(auto, using(std::proofs::lemmas::Grind::common_steps, crate::proofs::Tables::one_row))]

pub mod answering;
pub mod bounded;
pub mod delivering;
pub mod fault;
pub mod handing_in;
pub mod installing;
pub mod job;
pub mod ledger;
pub mod limits;
pub mod lookups;
pub mod message;
mod numbers;
pub mod office;
pub mod offices;
pub mod opening;
pub mod order;
pub mod preparing;
pub mod questions;
pub mod reading;
pub mod voting;
pub mod writing;
