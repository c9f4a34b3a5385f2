// Fields 12 to 17: contrast, U and V scale, hue, brightness and sharpness with their must-be-zero bits.
ghost use Rattle.std.specs.Prelude.{◌≡◌};
ghost use Rattle.refusals.specs.Verdict.{after, verdict_as};
ghost use Rattle.field_table.specs.Walk.{judge_of, numbers_of};
ghost use Rattle.adv7194_table.specs.Fields.{picture};

use crate::thousandths::read_thousandths;
use crate::zero_bits::read_zero;
use adv7194_codes::{brightness_setting, hue_setting, sharpness_setting};
use adv7194_table::rows::{
    BRIGHTNESS, BRIGHTNESS_ZERO, CONTRAST, HUE, SHARPNESS, SHARPNESS_ZERO, U_SCALE, V_SCALE,
};
use field_table::row::row_of;
use field_table::{held, read_decoded};
use refusals::Fault;

// These fields judged and read, after the fields before.
pub fn read_picture(
    before: Result<(), Fault>,
    image: &[u8],
    numbers: &mut [i32],
) -> Result<(), Fault>
    ensures answer { verdict_as result ≡ after (verdict_as before) (judge_of image.now picture) }
    ensures memory { numbers.new ≡ numbers_of image.now numbers.old picture }
{
    let contrast = read_thousandths(before, CONTRAST, image, numbers);
    let u_scale = read_thousandths(contrast, U_SCALE, image, numbers);
    let v_scale = read_thousandths(u_scale, V_SCALE, image, numbers);
    let degrees = hue_setting(held(image, row_of(HUE)));
    let hue = read_decoded(v_scale, degrees, HUE, numbers);
    let tenths = brightness_setting(held(image, row_of(BRIGHTNESS)));
    let brightness = read_decoded(hue, tenths, BRIGHTNESS, numbers);
    let brightness_zero = read_zero(brightness, BRIGHTNESS_ZERO, image, numbers);
    let step = sharpness_setting(held(image, row_of(SHARPNESS)));
    let sharpness = read_decoded(brightness_zero, step, SHARPNESS, numbers);
    read_zero(sharpness, SHARPNESS_ZERO, image, numbers)
}
