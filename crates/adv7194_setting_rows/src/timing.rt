// Fields 1 to 3: standard, square pixel, 4x oversampling.
ghost use Rattle.std.specs.Prelude.{◌≡◌};
ghost use Rattle.refusals.specs.Verdict.{after, verdict_as};
ghost use Rattle.field_table.specs.Writes.{puts};
ghost use Rattle.field_table.specs.Walk.{check_of, writes_of};
ghost use Rattle.adv7194_table.specs.Fields.{timing};

use adv7194_table::rows::{OVERSAMPLING, SQUARE_PIXEL, STANDARD};
use field_table::want_row;
use refusals::Fault;

// These fields checked and placed, after the fields before.
pub fn want_timing(
    before: Result<(), Fault>,
    numbers: &[i32],
    image: &mut [u8],
) -> Result<(), Fault>
    ensures answer { verdict_as result ≡ after (verdict_as before) (check_of numbers.now timing) }
    ensures memory { image.new ≡ puts image.old (writes_of numbers.now timing) }
{
    let standard = want_row(before, STANDARD, numbers, image);
    let square_pixel = want_row(standard, SQUARE_PIXEL, numbers, image);
    want_row(square_pixel, OVERSAMPLING, numbers, image)
}
