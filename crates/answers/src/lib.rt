// Answers of every chip as numbers, which is how C and Rust take them: a struct for each, and the function that fills it.
#![tactic(auto)]

pub mod plan_numbers;
pub mod read_numbers;
pub mod transaction_numbers;
