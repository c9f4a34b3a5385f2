// The ADV7194's table of fields as data: a packed row for each field of one number and for must-be-zero bits, a packed block for each field that fills whole
// registers, the masks of every register, and the registers of every field.
#![tactic(auto)]

pub mod blocks;
mod masks;
mod own;
mod registers;
pub mod rows;

pub use masks::{field_masks, must_be_zero};
pub use own::{outside_bits, own_bits, own_mask, setting_bits, zero_bits};
pub use registers::{field_registers, lowest_field};
