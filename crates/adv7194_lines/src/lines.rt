// Whole lines: number and name, the setting, the line end. Each function answers the place after what it wrote.
ghost use mathlib.Core.List.{◌++◌, map, flat_map};
ghost use Rattle.std.specs.Prelude.{◌+◌, ◌*◌, ◌≤◌, length};
ghost use Rattle.text.specs.Text.{space, line_end};
ghost use Rattle.field_table.specs.Rows.{row_of};
ghost use Rattle.field_table.specs.Coding.{plain_of, plain_fields};
ghost use Rattle.adv7194_table.specs.Blocks.{block_of, signalling};
ghost use Rattle.adv7194_table.specs.Table.{single, whole, signals, table};
ghost use Rattle.writing.specs.Put.{Put};
ghost use Rattle.adv7194_names.specs.Widths.{label_width, line_width, text_width};
ghost use Rattle.adv7194_lines.specs.Kinds.{curve_text};
ghost use Rattle.adv7194_lines.specs.Lines.{label_text};
ghost use Rattle.adv7194_lines.specs.Lines.{line_of};

use crate::kinds::{put_curve, put_signalling};
use adv7194_names::columns::{NAME, put_column};
use adv7194_names::values::put_setting;
use adv7194_table::blocks::{CURVE_A, CURVE_B, SIGNALLING, block_of};
use adv7194_table::rows::rows;
use field_table::given;
use field_table::row::row_of;
use text::put;
use writing::put_decimal;

// How many numbers the settings have; must-be-zero bits have an index past them.
pub const NUMBERS: usize = 49;

// How many rows stand before signalling, and how many there are.
const FRONT: usize = 10;

pub const ROWS: usize = 26;

// Writes a field's number and name.
pub fn put_label(line: &mut [u8], at: usize, field: u8) -> usize
    requires { at + label_width ≤ length line.old }
    ensures written { Put label_width line.old at (label_text field) line.new result }
{
    let number = put_decimal(line, at, field as u64);
    let spaced = put(line, number, b" ");
    put_column(line, spaced, field, NAME)
}

// Writes the line of a row of the table; must-be-zero bits have none.
fn row_line(line: &mut [u8], at: usize, numbers: &[i32], packed: u64) -> usize
    requires { at + line_width ≤ length line.old }
    ensures written { Put line_width line.old at (line_of numbers.now (single (plain_of (row_of packed)))) line.new result }
{
    let row = row_of(packed);
    if NUMBERS <= row.index {
        return at;
    }
    let label = put_label(line, at, row.field);
    let spaced = put(line, label, b" ");
    let setting = put_setting(line, spaced, row.field, given(numbers, row));
    put(line, setting, b"\n")
}

// Writes the lines of some rows.
fn row_lines(line: &mut [u8], at: usize, numbers: &[i32], rows: &[u64]) -> usize
    requires { at + line_width * length rows.now ≤ length line.old }
    ensures written { Put (line_width * length rows.now) line.old at (flat_map (line_of numbers.now) (map single (plain_fields rows.now))) line.new result }
{
    let mut place = at;
    for packed in rows {
        place = row_line(line, place, numbers, *packed);
    }
    place
}

// Writes the line of signalling.
fn signalling_line(line: &mut [u8], at: usize, numbers: &[i32]) -> usize
    requires { at + line_width ≤ length line.old }
    ensures written { Put line_width line.old at (line_of numbers.now (whole signals signalling)) line.new result }
{
    let block = block_of(SIGNALLING);
    let label = put_label(line, at, block.field);
    let spaced = put(line, label, b" ");
    let setting = put_signalling(line, spaced, numbers, block.index);
    put(line, setting, b"\n")
}

// Writes the line of a gamma curve.
fn curve_line(line: &mut [u8], at: usize, numbers: &[i32], packed: u64) -> usize
    requires { at + line_width ≤ length line.old }
    ensures written { Put line_width line.old at (label_text (block_of packed).field ++ space ++ curve_text numbers.now (block_of packed).index ++ line_end) line.new result }
{
    let block = block_of(packed);
    let label = put_label(line, at, block.field);
    let spaced = put(line, label, b" ");
    let setting = put_curve(line, spaced, numbers, block.index);
    put(line, setting, b"\n")
}

// Writes the lines of all settings, in the table's order.
pub fn setting_lines(line: &mut [u8], numbers: &[i32]) -> usize
    requires { text_width ≤ length line.old }
    ensures written { Put text_width line.old 0 (flat_map (line_of numbers.now) table) line.new result }
{
    let table = rows();
    let front = row_lines(line, 0, numbers, &table[0..FRONT]);
    let signalled = signalling_line(line, front, numbers);
    let back = row_lines(line, signalled, numbers, &table[FRONT..ROWS]);
    let first = curve_line(line, back, numbers, CURVE_A);
    curve_line(line, first, numbers, CURVE_B)
}
