// What is shown of a field on one side: its setting, or its raw code. Each function answers the place after what it wrote.
ghost use Rattle.std.specs.Prelude.{cond, ◌+◌, ◌≤◌, ◌<◌, length};
ghost use mathlib.Core.List.{[], reverse, flat_map};
ghost use Rattle.text.specs.Text.{hex_byte, hex_text};
ghost use Rattle.adv7194_bus.specs.Kind.{register_count};
ghost use Rattle.adv7194_table.specs.Blocks.{word};
ghost use Rattle.adv7194_table.specs.RawCodes.{raw_code};
ghost use Rattle.writing.specs.Ascii.{ascii};
ghost use Rattle.writing.specs.Put.{Put};
ghost use Rattle.adv7194_names.specs.Widths.{curve_width};
ghost use Rattle.compare_fields.specs.Widths.{raw_width, side_width};
ghost use Rattle.compare_fields.specs.Values.{own_text, field_value, side_of};
ghost use Rattle.field_table.specs.Blocks.{slice};

use adv7194_bus::REGISTERS;
use adv7194_lines::kinds::{put_curve, put_signalling};
use adv7194_listing::{byte_at, field_row};
use adv7194_names::values::put_setting;
use adv7194_table::blocks::{CURVE_A, CURVE_B, SIGNALLING, WORD, block_of};
use adv7194_table::{own_bits, own_mask};
use field_table::given;
use template::fill;
use text::put;
use writing::put_byte;

// The fields that fill whole registers.
const SIGNALLING_FIELD: u8 = 11;

const CURVE_A_FIELD: u8 = 26;

const CURVE_B_FIELD: u8 = 27;

const WORD_FIELD: u8 = 28;

// Writes what a register adds to a field's raw code: its byte after a space, or nothing.
fn put_own(line: &mut [u8], at: usize, image: &[u8], field: u8, register: usize) -> usize
    requires { (at + 3 ≤ length line.old) × (register < register_count) }
    ensures written { Put 3 line.old at (own_text image.now field register) line.new result }
{
    if own_mask(field, register) == 0 {
        return at;
    }
    put_byte(line, at, own_bits(image, field, register))
}

// Writes a field's raw code, each byte after a space.
fn put_raw(line: &mut [u8], at: usize, image: &[u8], field: u8) -> usize
    requires { at + raw_width ≤ length line.old }
    ensures written { Put raw_width line.old at (hex_text (raw_code image.now field)) line.new result }
{
    let mut place = at;
    for register in 0..REGISTERS as usize {
        place = put_own(line, place, image, field, register);
    }
    place
}

// Writes the subcarrier word, the highest byte first.
fn put_word(line: &mut [u8], at: usize, image: &[u8]) -> usize
    requires { at + curve_width ≤ length line.old }
    ensures written { Put curve_width line.old at (flat_map hex_byte (reverse (slice 0 image.now word.register word.registers))) line.new result }
{
    let first = block_of(WORD).register;
    let numbers = [
        byte_at(image, first + 3) as i32,
        byte_at(image, first + 2) as i32,
        byte_at(image, first + 1) as i32,
        byte_at(image, first) as i32,
    ];
    fill(line, at, b"####", &numbers, 0)
}

// Writes a field's setting.
fn put_value(line: &mut [u8], at: usize, image: &[u8], numbers: &[i32], field: u8) -> usize
    requires { (at + curve_width ≤ length line.old) × (0 < field) × (field < 29) }
    ensures written { Put curve_width line.old at (field_value image.now numbers.now field) line.new result }
{
    if field == SIGNALLING_FIELD {
        return put_signalling(line, at, numbers, block_of(SIGNALLING).index);
    }
    if field == CURVE_A_FIELD {
        return put_curve(line, at, numbers, block_of(CURVE_A).index);
    }
    if field == CURVE_B_FIELD {
        return put_curve(line, at, numbers, block_of(CURVE_B).index);
    }
    if field == WORD_FIELD {
        return put_word(line, at, image);
    }
    put_setting(line, at, field, given(numbers, field_row(field)))
}

// Writes what is shown of a field on one side, after a space: its setting, or its raw code.
pub(crate) fn put_side(
    line: &mut [u8],
    at: usize,
    readable: bool,
    image: &[u8],
    numbers: &[i32],
    field: u8,
) -> usize
    requires { (at + side_width ≤ length line.old) × (0 < field) × (field < 29) }
    ensures written { Put side_width line.old at (side_of readable image.now numbers.now field) line.new result }
{
    if readable {
        let spaced = put(line, at, b" ");
        return put_value(line, spaced, image, numbers, field);
    }
    put_raw(line, at, image, field)
}

// Writes what tells a raw code.
pub(crate) fn put_mark(line: &mut [u8], at: usize, readable: bool) -> usize
    requires { at + 4 ≤ length line.old }
    ensures written { Put 4 line.old at (cond readable [] (ascii " raw")) line.new result }
{
    if readable {
        return at;
    }
    put(line, at, b" raw")
}
