// Field 8, clamp delay: -3 to 3 clocks, coded as the magnitude with a sign bit above it.
ghost use Rattle.std.specs.Prelude.{◌≡◌};
ghost use Rattle.refusals.specs.Refusal.{judged_as};
ghost use Rattle.field_table.specs.Coding.{encode, decode};
ghost use Rattle.adv7194_table.specs.Fields.{clamp_delay};

use adv7194_table::rows::CLAMP_DELAY;
use field_table::out_of_range;
use refusals::Refusal;

const SIGN: i32 = 4;

const SIGN_CODE: u8 = 4;

const HIGHEST_CODE: u8 = 7;

// The code of a delay.
pub fn clamp_delay_code(clocks: i32) -> Result<u8, Refusal>
    ensures answer { judged_as result ≡ encode clamp_delay clocks }
{
    if out_of_range(CLAMP_DELAY, clocks) {
        return Err(Refusal::OutOfRange);
    }
    if clocks < 0 {
        return Ok((SIGN + -clocks) as u8);
    }
    Ok(clocks as u8)
}

// The delay of a code. The sign bit without a magnitude is the reserved code.
pub fn clamp_delay_setting(code: u8) -> Result<i32, Refusal>
    ensures answer { judged_as result ≡ decode clamp_delay code }
{
    if HIGHEST_CODE < code {
        Err(Refusal::OutOfRange)
    } else if code == SIGN_CODE {
        Err(Refusal::Reserved)
    } else if SIGN_CODE < code {
        Ok(SIGN - code as i32)
    } else {
        Ok(code as i32)
    }
}
