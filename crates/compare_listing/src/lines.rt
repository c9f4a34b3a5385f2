// The lines of the registers of two images that differ in bits outside all fields. Each function answers the place after what it wrote.
ghost use Rattle.std.specs.Prelude.{cond, ◌+◌, ◌*◌, ◌≤◌, ◌<◌, length};
ghost use mathlib.Core.List.{[], flat_map};
ghost use Rattle.adv7194_bus.specs.Kind.{register_count};
ghost use Rattle.writing.specs.Put.{Put};
ghost use Rattle.adv7194_compare.specs.Differences.{register_differs, registers_differing};
ghost use Rattle.compare_listing.specs.CompareText.{register_line};
ghost use Rattle.compare_listing.specs.Widths.{register_width};

use adv7194_bus::REGISTERS;
use adv7194_compare::register_differs;
use adv7194_table::outside_bits;
use template::fill;

// Writes a register's line.
fn register_text(line: &mut [u8], at: usize, a: &[u8], b: &[u8], register: usize) -> usize
    requires { (at + register_width ≤ length line.old) × (register < register_count) }
    ensures written { Put register_width line.old at (register_line a.now b.now register) line.new result }
{
    let numbers = [
        register as i32,
        outside_bits(a, register) as i32,
        outside_bits(b, register) as i32,
    ];
    fill(line, at, b"register # # | #\n", &numbers, 0)
}

// Writes a register's line where it differs in bits outside all fields.
fn register_line(line: &mut [u8], at: usize, a: &[u8], b: &[u8], register: usize) -> usize
    requires { (at + register_width ≤ length line.old) × (register < register_count) }
    ensures written { Put register_width line.old at (cond (register_differs a.now b.now register) (register_line a.now b.now register) []) line.new result }
{
    if register_differs(a, b, register) {
        return register_text(line, at, a, b, register);
    }
    at
}

// Writes a line for each register that differs in bits outside all fields.
pub(crate) fn register_lines(line: &mut [u8], at: usize, a: &[u8], b: &[u8]) -> usize
    requires { at + register_width * 54 ≤ length line.old }
    ensures written { Put (register_width * 54) line.old at (flat_map (register_line a.now b.now) (registers_differing a.now b.now)) line.new result }
{
    let mut place = at;
    for register in 0..REGISTERS as usize {
        place = register_line(line, place, a, b, register);
    }
    place
}
