// Fields 12 to 14, contrast and the U and V scales: thousandths, coded as the whole number nearest to 128 / 1000 of them.
ghost use Rattle.std.specs.Prelude.{◌≡◌};
ghost use Rattle.refusals.specs.Refusal.{judged_as};
ghost use Rattle.field_table.specs.Rows.{row_of};
ghost use Rattle.field_table.specs.Coding.{encode, decode};
ghost use Rattle.adv7194_codes.specs.Thousandths.{UpTo, in_thousandths};

use field_table::out_of_range;
use refusals::Refusal;

// A step of the code is a thousandth times NUMERATOR / DENOMINATOR.
const NUMERATOR: u32 = 128;

const DENOMINATOR: u32 = 1000;

// The code of a setting, by its row.
pub fn thousandths_code(packed: u64, setting: i32) -> Result<u8, Refusal>
    requires { UpTo 1996 (row_of packed) }
    ensures answer { judged_as result ≡ encode (in_thousandths (row_of packed)) setting }
{
    if out_of_range(packed, setting) {
        return Err(Refusal::OutOfRange);
    }
    Ok(rounding::nearest(NUMERATOR as u64 * setting as u64, DENOMINATOR as u64) as u8)
}

// The setting of a code, by its row: the least that has the code, where it is one of the row's.
pub fn thousandths_setting(packed: u64, code: u8) -> Result<i32, Refusal>
    requires { UpTo 1996 (row_of packed) }
    ensures answer { judged_as result ≡ decode (in_thousandths (row_of packed)) code }
{
    let setting = rounding::least_multiple(NUMERATOR, DENOMINATOR, code as u32) as i32;
    if out_of_range(packed, setting) {
        Err(Refusal::OutOfRange)
    } else {
        Ok(setting)
    }
}
