// Kinds of value: what a value is, and the two kinds, amounts of money and standings of goods.
#![tactic(auto)]

pub mod amount;
pub mod any_value;
pub mod currency;
pub mod fault;
pub mod standing;
pub mod value;
