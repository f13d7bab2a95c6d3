// One line of a day's input as one command, and the lines of an input.
#![tactic(auto)]

pub mod command;
pub mod cut;
mod fields;
mod letter;
pub mod lines;
pub mod parse;
#[cfg(test)]
mod tests;
