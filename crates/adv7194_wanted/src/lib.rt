// Settings checked field by field of the chip's table, and placed in an image.
// Kept: settings as a slice of 49 numbers, asked for in each `requires`, and the verdict so far beside what is lent. (a) an array asks more of callers of
// `want`; (d) a struct of the verdict and the lent image would have each clause speak of its states in place of `result` and `image`.
#![tactic(auto)]

mod curves;
mod placing;
mod signals;
mod wanting;
mod words;

pub use wanting::want;
