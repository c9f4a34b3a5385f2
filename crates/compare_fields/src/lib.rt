// The lines of the fields of two images that differ. Each function answers the place after what it wrote.
#![tactic(auto)]

mod parts;

ghost use Rattle.std.specs.Prelude.{cond, ◌+◌, ◌*◌, ◌≤◌, ◌<◌, length};
ghost use mathlib.Core.List.{[], flat_map};
ghost use Rattle.writing.specs.Put.{Put};
ghost use Rattle.adv7194_compare.specs.Differences.{field_differs, fields_differing};
ghost use Rattle.compare_fields.specs.FieldLines.{field_line};
ghost use Rattle.compare_fields.specs.Widths.{field_width};

use adv7194_compare::{LAST_FIELD, field_differs};
use adv7194_lines::lines::put_label;
use parts::{put_mark, put_side};
use text::put;

// Writes a field's line.
fn field_text(
    line: &mut [u8],
    at: usize,
    readable: bool,
    a: &[u8],
    b: &[u8],
    left: &[i32],
    right: &[i32],
    field: u8,
) -> usize
    requires { (at + field_width ≤ length line.old) × (0 < field) × (field < 29) }
    ensures written { Put field_width line.old at (field_line readable a.now b.now left.now right.now field) line.new result }
{
    let label = put_label(line, at, field);
    let mark = put_mark(line, label, readable);
    let first = put_side(line, mark, readable, a, left, field);
    let bar = put(line, first, b" |");
    let second = put_side(line, bar, readable, b, right, field);
    put(line, second, b"\n")
}

// Writes a field's line where the field differs.
fn field_line(
    line: &mut [u8],
    at: usize,
    readable: bool,
    a: &[u8],
    b: &[u8],
    left: &[i32],
    right: &[i32],
    field: u8,
) -> usize
    requires { (at + field_width ≤ length line.old) × (0 < field) × (field < 29) }
    ensures written { Put field_width line.old at (cond (field_differs a.now b.now field) (field_line readable a.now b.now left.now right.now field) []) line.new result }
{
    if field_differs(a, b, field) {
        return field_text(line, at, readable, a, b, left, right, field);
    }
    at
}

// Writes a line for each field that differs.
pub fn field_lines(
    line: &mut [u8],
    at: usize,
    readable: bool,
    a: &[u8],
    b: &[u8],
    left: &[i32],
    right: &[i32],
) -> usize
    requires { at + field_width * 28 ≤ length line.old }
    ensures written { Put (field_width * 28) line.old at (flat_map (field_line readable a.now b.now left.now right.now) (fields_differing a.now b.now)) line.new result }
{
    let mut place = at;
    for field in 1..=LAST_FIELD {
        place = field_line(line, place, readable, a, b, left, right, field);
    }
    place
}
