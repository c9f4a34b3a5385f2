// The ADV7194's settings of one number, row by row: checked and placed in an image, group by group.
// Kept row by row, each call with a literal row, where a walk over a slice of rows is shorter: (b) a loop over rows costs planning 1.3 times as many
// instructions (docs/DECISIONS.md, "Rows as literals").
// Kept beside adv7194_reading_rows, which reads the same groups: (d) one function for both ways would take the step as a closure, and each clause would speak
// of what that closure leaves in place of the image or the numbers.
#![tactic(auto)]

mod dnr;
mod output;
mod picture;
mod thousandths;
mod timing;
mod zero_bits;

pub use dnr::want_dnr;
pub use output::want_output;
pub use picture::want_picture;
pub use timing::want_timing;
