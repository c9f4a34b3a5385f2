// The ADV7194's fields of one number, row by row: an image judged and read, group by group.
// Kept row by row, each call with a literal row, where a walk over a slice of rows is shorter: (b) a loop over rows costs reading more than 1.3 times as many
// instructions (docs/DECISIONS.md, "Rows as literals").
// Kept beside adv7194_setting_rows, which places the same groups: (d) one function for both ways would take the step as a closure, and each clause would speak
// of what that closure leaves in place of the image or the numbers.
#![tactic(auto)]

mod dnr;
mod output;
mod picture;
mod thousandths;
mod timing;
mod zero_bits;

pub use dnr::read_dnr;
pub use output::read_output;
pub use picture::read_picture;
pub use timing::read_timing;
