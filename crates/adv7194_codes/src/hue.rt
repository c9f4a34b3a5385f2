// Field 15, hue: -225 to 224 tenths of a degree, coded as 128 plus the whole number nearest to 256 / 450 of it.
ghost use Rattle.std.specs.Prelude.{◌≡◌};
ghost use Rattle.refusals.specs.Refusal.{judged_as};
ghost use Rattle.field_table.specs.Coding.{encode, decode};
ghost use Rattle.adv7194_table.specs.Fields.{hue};

use crate::scaled::{least_times, nearest_times};
use adv7194_table::rows::HUE;
use field_table::out_of_range;
use refusals::Refusal;

// A step of the code is a tenth of a degree times NUMERATOR / DENOMINATOR.
const NUMERATOR: u32 = 256;

const DENOMINATOR: u32 = 450;

// The code of no hue.
const MIDDLE: i32 = 128;

// The code of a hue.
pub fn hue_code(tenths: i32) -> Result<u8, Refusal>
    ensures answer { judged_as result ≡ encode hue tenths }
{
    if out_of_range(HUE, tenths) {
        return Err(Refusal::OutOfRange);
    }
    Ok((MIDDLE + nearest_times(NUMERATOR, DENOMINATOR, tenths)) as u8)
}

// The hue of a code: every code has one.
pub fn hue_setting(code: u8) -> Result<i32, Refusal>
    ensures answer { judged_as result ≡ decode hue code }
{
    Ok(least_times(NUMERATOR, DENOMINATOR, code as i32 - MIDDLE))
}
