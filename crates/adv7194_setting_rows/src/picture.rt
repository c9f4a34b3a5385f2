// Fields 12 to 17: contrast, U and V scale, hue, brightness and sharpness with their must-be-zero bits.
ghost use Rattle.std.specs.Prelude.{◌≡◌, length};
ghost use Rattle.refusals.specs.Verdict.{after, verdict_as};
ghost use Rattle.field_table.specs.Writes.{puts};
ghost use Rattle.field_table.specs.Walk.{check_of, writes_of};
ghost use Rattle.adv7194_table.specs.Fields.{number_count, picture};

use crate::thousandths::want_thousandths;
use crate::zero_bits::clear_zero_bits;
use adv7194_codes::{brightness_code, hue_code, sharpness_code};
use adv7194_table::rows::{
    BRIGHTNESS, BRIGHTNESS_ZERO, CONTRAST, HUE, SHARPNESS, SHARPNESS_ZERO, U_SCALE, V_SCALE,
};
use field_table::row::row_of;
use field_table::{given, want_coded};
use refusals::Fault;

// These fields checked and placed, after the fields before.
pub fn want_picture(
    before: Result<(), Fault>,
    numbers: &[i32],
    image: &mut [u8],
) -> Result<(), Fault>
    requires { length numbers.now ≡ number_count }
    ensures answer { verdict_as result ≡ after (verdict_as before) (check_of numbers.now picture) }
    ensures memory { image.new ≡ puts image.old (writes_of numbers.now picture) }
{
    let contrast = want_thousandths(before, CONTRAST, numbers, image);
    let u_scale = want_thousandths(contrast, U_SCALE, numbers, image);
    let v_scale = want_thousandths(u_scale, V_SCALE, numbers, image);
    let hue = want_coded(v_scale, hue_code(given(numbers, row_of(HUE))), HUE, image);
    let tenths = brightness_code(given(numbers, row_of(BRIGHTNESS)));
    let brightness = want_coded(hue, tenths, BRIGHTNESS, image);
    clear_zero_bits(BRIGHTNESS_ZERO, image);
    let step = sharpness_code(given(numbers, row_of(SHARPNESS)));
    let sharpness = want_coded(brightness, step, SHARPNESS, image);
    clear_zero_bits(SHARPNESS_ZERO, image);
    sharpness
}
