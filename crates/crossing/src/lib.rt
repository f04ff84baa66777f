// Answers as they cross to C: enums and parts of lent lists, in numbers.
#![tactic(auto)]

pub mod numbers;
pub mod part;
