// Words and numbers written into a line that has room for them. Each function that writes answers the place after what it wrote.
#![tactic(auto)]

ghost use Rattle.std.specs.Prelude.{◌≡◌, ◌++◌, ◌+◌, ◌≤◌, pos, length, get_or};
ghost use Rattle.text.specs.Text.{space, signed, decimal, hex_byte};
ghost use Rattle.writing.specs.Put.{Put, number_width, count_width};
ghost use Rattle.writing.specs.Codes.{code};

use text::put;

// The largest byte.
const LARGEST_BYTE: i32 = 255;

// Number k of some, 0 past the last.
pub fn number_at(numbers: &[i32], k: usize) -> i32
    ensures answer { result ≡ get_or numbers.now k (pos 0) }
{
    numbers.get(k).copied().unwrap_or(0)
}

// Writes a number in signed decimal. Each of these three is one call of text, with the most bytes of its kind: one function over a closure would be longer.
pub fn put_signed(line: &mut [u8], at: usize, n: i32) -> usize
    requires { at + number_width ≤ length line.old }
    ensures written { Put number_width line.old at (signed n) line.new result }
{
    text::signed(line, at, n).unwrap_or(at)
}

// Writes a count in decimal.
pub fn put_decimal(line: &mut [u8], at: usize, n: u64) -> usize
    requires { at + count_width ≤ length line.old }
    ensures written { Put count_width line.old at (decimal n) line.new result }
{
    text::decimal(line, at, n).unwrap_or(at)
}

// Writes a byte in two hexadecimal digits.
pub fn put_hex(line: &mut [u8], at: usize, b: u8) -> usize
    requires { at + 2 ≤ length line.old }
    ensures written { Put 2 line.old at (hex_byte b) line.new result }
{
    text::hex_byte(line, at, b).unwrap_or(at)
}

// Writes a word and a number.
pub fn put_number(line: &mut [u8], at: usize, word: &[u8], n: i32) -> usize
    requires { at + (length word.now + number_width) ≤ length line.old }
    ensures written { Put (length word.now + number_width) line.old at (word.now ++ signed n) line.new result }
{
    let after = put(line, at, word);
    put_signed(line, after, n)
}

// Writes a number that stands for a byte in two hexadecimal digits, in signed decimal where it is no byte.
pub fn put_code(line: &mut [u8], at: usize, n: i32) -> usize
    requires { at + number_width ≤ length line.old }
    ensures written { Put number_width line.old at (code n) line.new result }
{
    if n < 0 || LARGEST_BYTE < n {
        return put_signed(line, at, n);
    }
    put_hex(line, at, n as u8)
}

// Writes a count among words.
pub fn put_counted(line: &mut [u8], at: usize, before: &[u8], n: u64, after: &[u8]) -> usize
    requires { at + (length before.now + count_width + length after.now) ≤ length line.old }
    ensures written { Put (length before.now + count_width + length after.now) line.old at (before.now ++ decimal n ++ after.now) line.new result }
{
    let begun = put(line, at, before);
    let counted = put_decimal(line, begun, n);
    put(line, counted, after)
}

// Writes a byte after a space.
pub fn put_byte(line: &mut [u8], at: usize, b: u8) -> usize
    requires { at + 3 ≤ length line.old }
    ensures written { Put 3 line.old at (space ++ hex_byte b) line.new result }
{
    let spaced = put(line, at, b" ");
    put_hex(line, spaced, b)
}
