// Text written into a lent line: byte strings and numbers.
#![tactic(auto)]

mod number;

ghost use Rattle.std.specs.Prelude.{◌≡◌, ◌+◌, ◌≤◌, length};
ghost use Rattle.text.specs.Line.{room, place_after, appended};

pub use number::{Digits, decimal, decimal_digits, hex_byte, signed};

// Whether the line has room for n bytes at a place.
fn fits(line: &[u8], at: usize, n: usize) -> bool
    ensures answer { result ≡ room line.now at n }
{
    at <= line.len() && n <= line.len() - at
}

// Writes a text into a line that has room for it, and answers the place after it.
pub fn put(line: &mut [u8], at: usize, text: &[u8]) -> usize
    requires { at + length text.now ≤ length line.old }
    ensures answer { result ≡ at + length text.now }
    ensures memory { line.new ≡ appended line.old at text.now }
{
    let end = at + text.len();
    line[at..end].copy_from_slice(text);
    end
}

// Appends a byte string, and answers the place after it; none where the line has no room for it.
pub fn append(line: &mut [u8], at: usize, text: &[u8]) -> Option<usize>
    ensures answer { result ≡ place_after line.old at text.now }
    ensures memory { line.new ≡ appended line.old at text.now }
{
    if fits(line, at, text.len()) {
        return Some(put(line, at, text));
    }
    None
}
