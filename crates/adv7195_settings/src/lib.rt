// The ADV7195's settings in progressive-scan mode: its table of fields, and settings checked and placed in an image.
#![tactic(auto)]

ghost use Rattle.std.specs.Prelude.{◌≡◌, length};
ghost use Rattle.refusals.specs.Verdict.{verdict_as};
ghost use Rattle.adv7195_settings.specs.Numbers.{number_count};
ghost use Rattle.adv7195_settings.specs.Wanted.{wanted_by};
ghost use Rattle.adv7195_settings.specs.Rows.{check_of};

use refusals::Fault;

mod numbers;
mod table;

use numbers::parts_of;
pub use numbers::{NUMBERS, PARTS, numbers_of};
pub use table::rows;

// Settings checked, and what they want over a lent image, which takes its place; where they are refused, it doesn't count.
pub fn want(numbers: &[i32], image: &mut [u8]) -> Result<(), Fault>
    requires { length numbers.now ≡ number_count }
    ensures answer { verdict_as result ≡ check_of numbers.now }
    ensures memory { image.new ≡ wanted_by image.old numbers.now }
{
    let parts = parts_of(numbers);
    field_table::want(&rows(), &parts, image)
}
