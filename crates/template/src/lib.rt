// Text by a template: marks in it stand for numbers.
#![tactic(auto)]

pub mod columns;

ghost use Rattle.std.specs.Prelude.{◌≡◌, ◌+◌, ◌≤◌, ◌<◌, ◌^◌, length, drop};
ghost use Rattle.writing.specs.Put.{Put};
ghost use Rattle.template.specs.Columns.{column_in};
ghost use Rattle.template.specs.Template.{is_mark, stands_for, filled, width, widths};

use columns::{column_end, column_start};
use text::put;
use writing::{number_at, put_code, put_signed};

// The mark of a number in signed decimal, and of one as a byte.
const DECIMAL: u8 = b'%';

const BYTE: u8 = b'#';

// Whether a byte of a template is a mark.
fn is_mark(b: u8) -> bool
    ensures answer { result ≡ is_mark b }
{
    b == DECIMAL || b == BYTE
}

// Writes what a byte of a template stands for, by the number that is next, and answers the place after it.
fn put_part(line: &mut [u8], at: usize, b: u8, n: i32) -> usize
    requires { at + width b ≤ length line.old }
    ensures written { Put (width b) line.old at (stands_for b n) line.new result }
{
    if b == DECIMAL {
        put_signed(line, at, n)
    } else if b == BYTE {
        put_code(line, at, n)
    } else {
        put(line, at, &[b])
    }
}

// Writes the text of a template and some numbers, from number `first` on, into a line that has room for it, and answers the place after it.
pub fn fill(line: &mut [u8], at: usize, template: &[u8], numbers: &[i32], first: usize) -> usize
    requires { (at + widths template.now ≤ length line.old) × (first + length template.now < 2 ^ 64) }
    ensures written { Put (widths template.now) line.old at (filled template.now (drop first numbers.now)) line.new result }
{
    let mut place = at;
    let mut next = first;
    for &b in template {
        place = put_part(line, place, b, number_at(numbers, next));
        if is_mark(b) {
            next += 1;
        }
    }
    place
}

// Writes the text of a table's column, which is a template, and some numbers, from number `first` on, into a line that has room for it, and answers the place
// after it.
pub fn fill_column(
    line: &mut [u8],
    at: usize,
    table: &[u8],
    column: usize,
    numbers: &[i32],
    first: usize,
) -> usize
    requires { (at + widths (column_in table.now column) ≤ length line.old) × (first + length table.now < 2 ^ 64) }
    ensures written { Put (widths (column_in table.now column)) line.old at (filled (column_in table.now column) (drop first numbers.now)) line.new result }
{
    let start = column_start(table, column);
    let end = column_end(table, start);
    fill(line, at, &table[start..end], numbers, first)
}
