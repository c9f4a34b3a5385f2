// The settings that have kinds, signalling and gamma curves: some of the settings' numbers from index k on. Each function answers the place after what
// it wrote.
ghost use Rattle.std.specs.Prelude.{◌≡◌, ◌+◌, ◌≤◌, ◌<◌, length};
ghost use Rattle.writing.specs.Put.{Put};
ghost use Rattle.adv7194_names.specs.Widths.{signalling_width, curve_width};
ghost use Rattle.adv7194_lines.specs.Kinds.{cgms_text, signalling_text, curve_text};
ghost use Rattle.adv7194_lines.specs.Templates.{signalling_template, curve_template};

use adv7194_names::values::put_flag;
use template::fill_column;
use writing::{number_at, put_number};

// The kinds of signalling, and those of curve below. Numbers of the settings, where any other number has a text of its own.
const OFF: i32 = 0;

const CGMS: i32 = 1;

const WSS: i32 = 2;

// The kinds of curve.
const RATIO: i32 = 0;

const BYTES: i32 = 1;

// The template of a setting: its column in a table, and how many of the setting's numbers stand before the first that it shows.
#[derive(Clone, Copy)]
struct Template {
    column: usize,
    skipped: usize,
}

// Writes CGMS: its payload and three yes/no.
fn put_cgms(line: &mut [u8], at: usize, numbers: &[i32], k: usize) -> usize
    requires { (at + signalling_width ≤ length line.old) × (k < 256) }
    ensures written { Put signalling_width line.old at (cgms_text numbers.now k) line.new result }
{
    let payload = put_number(line, at, b"CGMS ", number_at(numbers, k + 1));
    let odd = put_flag(line, payload, b" odd ", number_at(numbers, k + 2));
    let even = put_flag(line, odd, b" even ", number_at(numbers, k + 3));
    put_flag(line, even, b" chip check ", number_at(numbers, k + 4))
}

// Which template is signalling's, CGMS aside, by its kind.
fn signalling_template(kind: i32) -> Template
    ensures answer { result ≡ signalling_template kind }
{
    match kind {
        OFF => Template {
            column: 0,
            skipped: 0,
        },
        WSS => Template {
            column: 1,
            skipped: 1,
        },
        _ => Template {
            column: 2,
            skipped: 0,
        },
    }
}

// Writes signalling by its kind.
pub fn put_signalling(line: &mut [u8], at: usize, numbers: &[i32], k: usize) -> usize
    requires { (at + signalling_width ≤ length line.old) × (k < 256) }
    ensures written { Put signalling_width line.old at (signalling_text numbers.now k) line.new result }
{
    let kind = number_at(numbers, k);
    if kind == CGMS {
        return put_cgms(line, at, numbers, k);
    }
    let t = signalling_template(kind);
    fill_column(line, at, b"off,WSS %,%", t.column, numbers, k + t.skipped)
}

// Which template is a curve's, by its kind.
fn curve_template(kind: i32) -> Template
    ensures answer { result ≡ curve_template kind }
{
    match kind {
        RATIO => Template {
            column: 0,
            skipped: 1,
        },
        BYTES => Template {
            column: 1,
            skipped: 3,
        },
        _ => Template {
            column: 2,
            skipped: 0,
        },
    }
}

// Writes a curve by its kind.
pub fn put_curve(line: &mut [u8], at: usize, numbers: &[i32], k: usize) -> usize
    requires { (at + curve_width ≤ length line.old) × (k < 256) }
    ensures written { Put curve_width line.old at (curve_text numbers.now k) line.new result }
{
    let t = curve_template(number_at(numbers, k));
    fill_column(
        line,
        at,
        b"ratio %/%,# # # # # # #,%",
        t.column,
        numbers,
        k + t.skipped,
    )
}
