// Fields 1 to 3: standard, square pixel, 4x oversampling.
ghost use Rattle.std.specs.Prelude.{◌≡◌};
ghost use Rattle.refusals.specs.Verdict.{after, verdict_as};
ghost use Rattle.field_table.specs.Walk.{judge_of, numbers_of};
ghost use Rattle.adv7194_table.specs.Fields.{timing};

use adv7194_table::rows::{OVERSAMPLING, SQUARE_PIXEL, STANDARD};
use field_table::read_row;
use refusals::Fault;

// These fields judged and read, after the fields before.
pub fn read_timing(
    before: Result<(), Fault>,
    image: &[u8],
    numbers: &mut [i32],
) -> Result<(), Fault>
    ensures answer { verdict_as result ≡ after (verdict_as before) (judge_of image.now timing) }
    ensures memory { numbers.new ≡ numbers_of image.now numbers.old timing }
{
    let standard = read_row(before, STANDARD, image, numbers);
    let square_pixel = read_row(standard, SQUARE_PIXEL, image, numbers);
    read_row(square_pixel, OVERSAMPLING, image, numbers)
}
