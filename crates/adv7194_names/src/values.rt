// Settings of one number written into a line that has room for them. Each function answers the place after what it wrote.
ghost use Rattle.std.specs.Prelude.{◌++◌, ◌+◌, ◌≤◌, length};
ghost use Rattle.text.specs.Text.{signed};
ghost use Rattle.writing.specs.Ascii.{ascii};
ghost use Rattle.adv7194_names.specs.Names.{named};
ghost use Rattle.writing.specs.Put.{Put, number_width};
ghost use Rattle.adv7194_names.specs.Widths.{column_width, setting_width};
ghost use Rattle.adv7194_names.specs.Values.{word_of, number_text, yes_no};

use crate::columns::{ONE, UNIT, ZERO, put_column};
use text::put;
use writing::put_signed;

// Writes the word of a field's setting, nothing where it has none.
fn put_word(line: &mut [u8], at: usize, field: u8, n: i32) -> usize
    requires { at + column_width ≤ length line.old }
    ensures written { Put column_width line.old at (word_of (named field) n) line.new result }
{
    if n == 0 {
        return put_column(line, at, field, ZERO);
    }
    if n == 1 {
        return put_column(line, at, field, ONE);
    }
    at
}

// Writes a field's setting as a number with its unit.
fn put_amount(line: &mut [u8], at: usize, field: u8, n: i32) -> usize
    requires { at + setting_width ≤ length line.old }
    ensures written { Put setting_width line.old at (signed n ++ ascii (named field).unit) line.new result }
{
    let number = put_signed(line, at, n);
    put_column(line, number, field, UNIT)
}

// Writes a field's setting of one number: its word, or the number with its unit.
pub fn put_setting(line: &mut [u8], at: usize, field: u8, n: i32) -> usize
    requires { at + setting_width ≤ length line.old }
    ensures written { Put setting_width line.old at (number_text (named field) n) line.new result }
{
    let word = put_word(line, at, field, n);
    if at < word {
        return word;
    }
    put_amount(line, at, field, n)
}

// Writes a yes/no.
fn put_yes(line: &mut [u8], at: usize, n: i32) -> usize
    requires { at + number_width ≤ length line.old }
    ensures written { Put number_width line.old at (yes_no n) line.new result }
{
    if n == 0 {
        return put(line, at, b"no");
    }
    if n == 1 {
        return put(line, at, b"yes");
    }
    put_signed(line, at, n)
}

// Writes a word and a yes/no.
pub fn put_flag(line: &mut [u8], at: usize, word: &[u8], n: i32) -> usize
    requires { at + (length word.now + number_width) ≤ length line.old }
    ensures written { Put (length word.now + number_width) line.old at (word.now ++ yes_no n) line.new result }
{
    let after = put(line, at, word);
    put_yes(line, after, n)
}
