// Field 16, brightness: -75 to 150 tenths of an IRE, coded as the nearest whole number of seven bits, two's complement.
ghost use Rattle.std.specs.Prelude.{◌≡◌, ◌-◌, ◌≤◌, cond, nat_le, pos, ◌-ℤ◌};
ghost use Rattle.refusals.specs.Refusal.{judged_as};
ghost use Rattle.field_table.specs.Coding.{encode, decode};
ghost use Rattle.adv7194_table.specs.Fields.{brightness};

use crate::scaled::{least_times, nearest_times};
use adv7194_table::rows::BRIGHTNESS;
use field_table::out_of_range;
use refusals::Refusal;

// A step of the code is a tenth of an IRE times NUMERATOR / DENOMINATOR.
const NUMERATOR: u32 = 2015631;

const DENOMINATOR: u32 = 10000000;

// How many codes seven bits have.
const CODES: u8 = 128;

const HIGHEST_POSITIVE: u8 = 0x1E;

const LOWEST_NEGATIVE: u8 = 0x71;

const HIGHEST_CODE: u8 = 0x7F;

// The code of a negative level, by its magnitude: two's complement of seven bits.
fn complement(magnitude: u8) -> u8
    requires { magnitude ≤ 64 }
    ensures answer { result ≡ 128 - magnitude }
{
    CODES - magnitude
}

// The code of a brightness.
pub fn brightness_code(tenths: i32) -> Result<u8, Refusal>
    ensures answer { judged_as result ≡ encode brightness tenths }
{
    if out_of_range(BRIGHTNESS, tenths) {
        return Err(Refusal::OutOfRange);
    }
    let level = nearest_times(NUMERATOR, DENOMINATOR, tenths);
    if level < 0 {
        return Ok(complement((-level) as u8));
    }
    Ok(level as u8)
}

// The level that a code stands for: seven bits, two's complement.
fn level(code: u8) -> i32
    requires { code ≤ 127 }
    ensures answer { result ≡ cond (nat_le 113 code) (pos code -ℤ pos 128) (pos code) }
{
    if LOWEST_NEGATIVE <= code {
        code as i32 - CODES as i32
    } else {
        code as i32
    }
}

// The brightness of a code.
pub fn brightness_setting(code: u8) -> Result<i32, Refusal>
    ensures answer { judged_as result ≡ decode brightness code }
{
    if HIGHEST_CODE < code {
        Err(Refusal::OutOfRange)
    } else if HIGHEST_POSITIVE < code && code < LOWEST_NEGATIVE {
        Err(Refusal::OutOfRange)
    } else {
        Ok(least_times(NUMERATOR, DENOMINATOR, level(code)))
    }
}
