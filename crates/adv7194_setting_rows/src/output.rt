// Fields 5 to 10: Y level, UV level, RGB sync, clamp delay, clamp in back porch, subcarrier phase.
ghost use Rattle.std.specs.Prelude.{◌≡◌};
ghost use Rattle.refusals.specs.Verdict.{after, verdict_as};
ghost use Rattle.field_table.specs.Writes.{puts};
ghost use Rattle.field_table.specs.Walk.{check_of, writes_of};
ghost use Rattle.adv7194_table.specs.Fields.{output};

use adv7194_codes::clamp_delay_code;
use adv7194_table::rows::{BACK_PORCH, CLAMP_DELAY, PHASE, RGB_SYNC, UV_LEVEL, Y_LEVEL};
use field_table::row::row_of;
use field_table::{given, want_coded, want_row};
use refusals::Fault;

// These fields checked and placed, after the fields before.
pub fn want_output(
    before: Result<(), Fault>,
    numbers: &[i32],
    image: &mut [u8],
) -> Result<(), Fault>
    ensures answer { verdict_as result ≡ after (verdict_as before) (check_of numbers.now output) }
    ensures memory { image.new ≡ puts image.old (writes_of numbers.now output) }
{
    let y_level = want_row(before, Y_LEVEL, numbers, image);
    let uv_level = want_row(y_level, UV_LEVEL, numbers, image);
    let rgb_sync = want_row(uv_level, RGB_SYNC, numbers, image);
    let coded = clamp_delay_code(given(numbers, row_of(CLAMP_DELAY)));
    let clamp_delay = want_coded(rgb_sync, coded, CLAMP_DELAY, image);
    let back_porch = want_row(clamp_delay, BACK_PORCH, numbers, image);
    want_row(back_porch, PHASE, numbers, image)
}
