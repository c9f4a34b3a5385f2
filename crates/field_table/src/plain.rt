// The plain coding: the setting is the code.
ghost use Rattle.std.specs.Prelude.{◌≡◌, cond, ◌^◌, ◌<◌, T};
ghost use Rattle.refusals.specs.Refusal.{judged_as, number_of};
ghost use Rattle.field_table.specs.Rows.{refusal_outside};
ghost use Rattle.field_table.specs.Coding.{plain, plain_of, is_code, encode, decode};
ghost use Rattle.field_table.specs.Walk.{row_fits};

use crate::row::{Row, outside};
use refusals::Refusal;

// How many codes a row's bits have.
fn codes(width: u8) -> u32
    requires { width < 16 }
    ensures answer { result ≡ 2 ^ width }
{
    1 << width
}

// The refusal of a code that is no setting's.
fn refusal_outside(row: Row) -> Refusal
    ensures answer { number_of result ≡ refusal_outside row }
{
    if row.outside == 3 {
        return Refusal::OutOfRange;
    }
    Refusal::Reserved
}

// The refusal of a number that is no setting: as the row says where it is a code of its bits.
fn refusal(row: Row, number: i32) -> Refusal
    requires { row.width < 16 }
    ensures answer { number_of result ≡ cond (is_code plain row.width number) (refusal_outside row) 3 }
{
    if number < 0 || codes(row.width) <= number as u32 {
        return Refusal::OutOfRange;
    }
    refusal_outside(row)
}

// The code of a setting.
pub fn code(row: Row, setting: i32) -> Result<u8, Refusal>
    requires { T (row_fits row) }
    ensures answer { judged_as result ≡ encode (plain_of row) setting }
{
    if outside(setting, row.low, row.high) {
        return Err(refusal(row, setting));
    }
    Ok(setting as u8)
}

// The setting of a code.
pub fn setting(row: Row, code: u8) -> Result<i32, Refusal>
    requires { T (row_fits row) }
    ensures answer { judged_as result ≡ decode (plain_of row) code }
{
    let number = code as i32;
    if outside(number, row.low, row.high) {
        return Err(refusal(row, number));
    }
    Ok(number)
}
