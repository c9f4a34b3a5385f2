// Fields 5 to 10: Y level, UV level, RGB sync, clamp delay, clamp in back porch, subcarrier phase.
ghost use Rattle.std.specs.Prelude.{◌≡◌};
ghost use Rattle.refusals.specs.Verdict.{after, verdict_as};
ghost use Rattle.field_table.specs.Walk.{judge_of, numbers_of};
ghost use Rattle.adv7194_table.specs.Fields.{output};

use adv7194_codes::clamp_delay_setting;
use adv7194_table::rows::{BACK_PORCH, CLAMP_DELAY, PHASE, RGB_SYNC, UV_LEVEL, Y_LEVEL};
use field_table::row::row_of;
use field_table::{held, read_decoded, read_row};
use refusals::Fault;

// These fields judged and read, after the fields before.
pub fn read_output(
    before: Result<(), Fault>,
    image: &[u8],
    numbers: &mut [i32],
) -> Result<(), Fault>
    ensures answer { verdict_as result ≡ after (verdict_as before) (judge_of image.now output) }
    ensures memory { numbers.new ≡ numbers_of image.now numbers.old output }
{
    let y_level = read_row(before, Y_LEVEL, image, numbers);
    let uv_level = read_row(y_level, UV_LEVEL, image, numbers);
    let rgb_sync = read_row(uv_level, RGB_SYNC, image, numbers);
    let clocks = clamp_delay_setting(held(image, row_of(CLAMP_DELAY)));
    let clamp_delay = read_decoded(rgb_sync, clocks, CLAMP_DELAY, numbers);
    let back_porch = read_row(clamp_delay, BACK_PORCH, image, numbers);
    read_row(back_porch, PHASE, image, numbers)
}
