// A whole day: each line of an input carried out in a house of amounts, and all answers as one text.
#![tactic(auto)]

pub mod answer;
pub mod carry_out;
pub mod day;
pub mod refusal;
