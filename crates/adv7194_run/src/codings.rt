// The codings of the fields that hold one number.
ghost use Rattle.std.specs.Prelude.{T};
ghost use Rattle.field_table.specs.Rows.{row_of};
ghost use Rattle.field_table.specs.Walk.{row_fits};

use crate::print;
use adv7194_table::rows;
use field_table::row::row_of;
use records::tokens;
use refusals::Refusal;
use std::io;

// The last field that is set by one number, and the one before it that is not.
const LAST_FIELD: u32 = 25;

const SIGNALLING: u32 = 11;

// A byte of a list as a number is itself and this.
const BYTE: u32 = tokens::BYTE as u32;

// Whether a field is set by one number.
fn is_single(field: u32) -> bool {
    (0 < field) & (field <= LAST_FIELD) & (field != SIGNALLING)
}

// The row of a field whose setting is its code, by its number in document 01.
fn plain_row(field: u32) -> u64
    ensures { T (row_fits (row_of result)) }
{
    match field {
        1 => rows::STANDARD,
        2 => rows::SQUARE_PIXEL,
        3 => rows::OVERSAMPLING,
        4 => rows::PEDESTAL,
        5 => rows::Y_LEVEL,
        6 => rows::UV_LEVEL,
        7 => rows::RGB_SYNC,
        9 => rows::BACK_PORCH,
        10 => rows::PHASE,
        18 => rows::BORDER_GAIN,
        19 => rows::DATA_GAIN,
        20 => rows::THRESHOLD,
        21 => rows::BORDER_AREA,
        22 => rows::BLOCK_SIZE,
        23 => rows::DNR_INPUT,
        24 => rows::DNR_MODE,
        _ => rows::BLOCK_OFFSET,
    }
}

// The code of a field's setting.
fn code_of(field: u32, n: i32) -> Result<u8, Refusal> {
    match field {
        8 => adv7194_codes::clamp_delay_code(n),
        12 => adv7194_codes::thousandths_code(rows::CONTRAST, n),
        13 => adv7194_codes::thousandths_code(rows::U_SCALE, n),
        14 => adv7194_codes::thousandths_code(rows::V_SCALE, n),
        15 => adv7194_codes::hue_code(n),
        16 => adv7194_codes::brightness_code(n),
        17 => adv7194_codes::sharpness_code(n),
        _ => field_table::code(row_of(plain_row(field)), n),
    }
}

// The setting of a field's code.
fn setting_of(field: u32, c: u8) -> Result<i32, Refusal> {
    match field {
        8 => adv7194_codes::clamp_delay_setting(c),
        12 => adv7194_codes::thousandths_setting(rows::CONTRAST, c),
        13 => adv7194_codes::thousandths_setting(rows::U_SCALE, c),
        14 => adv7194_codes::thousandths_setting(rows::V_SCALE, c),
        15 => adv7194_codes::hue_setting(c),
        16 => adv7194_codes::brightness_setting(c),
        17 => adv7194_codes::sharpness_setting(c),
        _ => field_table::setting(row_of(plain_row(field)), c),
    }
}

// Answers a record of a field's setting.
pub(crate) fn code(rt: &impl Print, field: u32, setting: i32) -> io::Result<()> {
    if !is_single(field) {
        return print::no_record(rt);
    }
    match code_of(field, setting) {
        Ok(c) => {
            print::verdict(rt, 0, 0)?;
            print::byte(rt, c)
        }
        Err(why) => print::verdict(rt, why.number() as u32, field),
    }
}

// Answers a record of a field's code, a byte of a list.
pub(crate) fn setting(rt: &impl Print, field: u32, code: u32) -> io::Result<()> {
    if !is_single(field) | (code < BYTE) {
        return print::no_record(rt);
    }
    match setting_of(field, (code % 256) as u8) {
        Ok(n) => {
            print::verdict(rt, 0, 0)?;
            print::number(rt, n)
        }
        Err(why) => print::verdict(rt, why.number() as u32, field),
    }
}
