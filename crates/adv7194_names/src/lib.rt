// The table of names and units, and settings of one number as text.
#![tactic(auto)]

pub mod columns;
pub mod values;
