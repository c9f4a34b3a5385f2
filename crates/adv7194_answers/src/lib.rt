// The ADV7194's own answers as numbers, which is how C and Rust take them: a struct for each, and the function that fills it.
#![tactic(auto)]

pub mod captions_numbers;
pub mod compare_numbers;
pub mod play_numbers;
pub mod why_numbers;
