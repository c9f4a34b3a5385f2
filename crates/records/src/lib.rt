// Records, one to a line: lines of an input, and the word, the numbers and the bytes of a record.
#![tactic(auto)]

pub mod lines;
pub mod tokens;
