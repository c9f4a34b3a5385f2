// Signalling, field 11 of document 01: the codings of CGMS, WSS and off in registers 19, 1A and 1B, there and back.
#![tactic(auto)]

pub mod cgms;
mod check;
pub mod field;
pub mod kind;
mod numbers;
pub mod registers;
mod word;
pub mod wss;
