// The house, the values and the day sheet as C functions on numbers and bytes, so that another program can compare them with its own
// and measure them. Every function takes any input. The folder `compare` has the program that calls these.
#![tactic(auto)]

pub mod answers;
pub mod day;
pub mod requests;
pub mod run;
pub mod values_made;
