// The ADV7194's fields that fill whole registers: an image judged and read, field by field.
#![tactic(auto)]

mod curves;
mod places;
mod signals;
mod subcarrier_word;

pub use curves::read_curve;
pub use signals::read_signalling;
pub use subcarrier_word::read_word;
