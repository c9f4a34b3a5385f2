// Settings as 49 numbers: the house setting, and the conflicts between fields (rows 5, 6 and 7 of the refusals). What settings mean and what an image holds
// are this crate's definitions; `adv7194_wanted` and `adv7194_reading` have the code.
#![tactic(auto)]

mod conflicts;
mod house_setting;

pub use conflicts::{fault, pedestal_with_pal, square_with_oversampling};
pub use house_setting::{NUMBERS, house};
