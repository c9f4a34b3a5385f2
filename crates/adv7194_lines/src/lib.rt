// The lines of settings: number, name and the setting in its own unit.
#![tactic(auto)]

pub mod kinds;
pub mod lines;
