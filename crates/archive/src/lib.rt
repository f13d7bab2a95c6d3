// The archive of a ledger and its shelf, as bytes in a lent buffer: a head, and one leaf for each answered job in rising job number.
// This crate is internal to the house above it, which tests that nothing is lacking and that there is room before it has the bytes written.
#![tactic(auto)]

pub mod archive;
mod frame;
pub mod lacking;
pub mod leaf;
pub mod size;
pub mod write;
