// Fields of one number, by a table with a row a field: settings checked and placed in an image, an image judged and read. The table, the numbers and
// the registers are slices, so that any chip's table serves.
#![tactic(auto)]

mod places;
mod plain;
pub mod row;
mod rows;
mod walking;

pub use places::{given, held, store};
pub use plain::{code, setting};
pub use row::out_of_range;
pub use rows::{read_decoded, read_row, want_coded, want_row};
pub use walking::{check, read, want};
