// Field 17, sharpness: a step of -6 to 6, coded as the step plus 6.
ghost use Rattle.std.specs.Prelude.{◌≡◌};
ghost use Rattle.refusals.specs.Refusal.{judged_as};
ghost use Rattle.field_table.specs.Coding.{encode, decode};
ghost use Rattle.adv7194_table.specs.Fields.{sharpness};

use adv7194_table::rows::SHARPNESS;
use field_table::out_of_range;
use refusals::Refusal;

const OFFSET: i32 = 6;

const HIGHEST_CODE: u8 = 12;

// The code of a step.
pub fn sharpness_code(step: i32) -> Result<u8, Refusal>
    ensures answer { judged_as result ≡ encode sharpness step }
{
    if out_of_range(SHARPNESS, step) {
        return Err(Refusal::OutOfRange);
    }
    Ok((step + OFFSET) as u8)
}

// The step of a code.
pub fn sharpness_setting(code: u8) -> Result<i32, Refusal>
    ensures answer { judged_as result ≡ decode sharpness code }
{
    if HIGHEST_CODE < code {
        Err(Refusal::OutOfRange)
    } else {
        Ok(code as i32 - OFFSET)
    }
}
