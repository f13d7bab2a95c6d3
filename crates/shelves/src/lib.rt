// Shelves: append-only stores of values of one kind, in memory that the caller lends.
#![tactic(auto)]

pub mod any_shelf;
pub mod byte_shelf;
pub mod cell_shelf;
pub mod fault;
mod room;
pub mod shelf;
