// The first line of a listing: written, and recognised by its word.
#![tactic(auto)]

ghost use Rattle.std.specs.Prelude.{◌≡◌, [], ◌∷◌, ◌++◌, ◌+◌, ◌≤◌, length};
ghost use Rattle.text.specs.Line.{appended};
ghost use Rattle.text.specs.Text.{decimal};
ghost use Rattle.listing.specs.Lines.{counts_line, plan_line, refused_line};
ghost use Rattle.listing.specs.Written.{line_of, word_of};

use text::{decimal, put};

// The bytes that hold the longest line: a word of eight bytes, two numbers of twenty digits, a space and a line end.
const LINE_WIDTH: usize = 50;

// A line: the first bytes, as many as its length. Those after are zero. The length stands beside the bytes because `line_of` says what a line is for a text
// of any length; a line that knows that it is within its bytes could not be stated for all of them.
#[derive(Clone, Copy)]
pub struct Line {
    pub bytes: [u8; LINE_WIDTH],
    pub length: usize,
}

// The word that a line begins with.
#[derive(Clone, Copy)]
pub enum Word {
    Plan,
    Refused,
    Other,
}

// The word that a line begins with.
pub fn first_word(line: &[u8]) -> Word
    ensures answer { result ≡ word_of line.now }
{
    if line.starts_with(b"PLAN ") {
        Word::Plan
    } else if line.starts_with(b"REFUSED ") {
        Word::Refused
    } else {
        Word::Other
    }
}

// Writes a number and a byte after it into a line that has room for them, and answers the place after them.
fn put_number(line: &mut [u8], at: usize, n: u64, end: u8) -> usize
    requires { at + length (decimal n) + 1 ≤ length line.old }
    ensures answer { result ≡ at + length (decimal n) + 1 }
    ensures memory { line.new ≡ appended line.old at (decimal n ++ (end ∷ [])) }
{
    let next = decimal(line, at, n).unwrap_or(at);
    line[next] = end;
    next + 1
}

// The line of a word of at most eight bytes and two numbers.
fn counts_line(word: &[u8], a: u64, b: u64) -> Line
    requires { length word.now ≤ 8 }
    ensures answer { result ≡ line_of (counts_line word.now a b) }
{
    let mut bytes = [0u8; LINE_WIDTH];
    let first = put(&mut bytes, 0, word);
    let second = put_number(&mut bytes, first, a, b' ');
    let length = put_number(&mut bytes, second, b, b'\n');
    Line { bytes, length }
}

// The line `PLAN transactions bytes`.
pub fn plan_line(transactions: u64, bytes: u64) -> Line
    ensures answer { result ≡ line_of (plan_line transactions bytes) }
{
    counts_line(b"PLAN ", transactions, bytes)
}

// The line `REFUSED number field`.
pub fn refused_line(number: u8, field: u8) -> Line
    ensures answer { result ≡ line_of (refused_line number field) }
{
    counts_line(b"REFUSED ", number as u64, field as u64)
}
