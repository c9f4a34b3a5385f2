// Words, numbers and bytes on standard output. A list is printed at once, since each print is a write of its own.
use std::{fmt, io};

// Bytes, each after a space in two hexadecimal digits.
#[derive(Clone, Copy)]
struct HexBytes<'a>(&'a [u8]);

impl fmt::Display for HexBytes<'_> {
    fn fmt<W: fmt::Write>(&self, f: &mut fmt::Formatter<W>) -> fmt::Result {
        for b in self.0 {
            write!(f, " {b:02X}")?;
        }
        Ok(())
    }
}

// Signed numbers, each after a space in decimal.
#[derive(Clone, Copy)]
struct Decimals<'a>(&'a [i32]);

impl fmt::Display for Decimals<'_> {
    fn fmt<W: fmt::Write>(&self, f: &mut fmt::Formatter<W>) -> fmt::Result {
        for n in self.0 {
            write!(f, " {n}")?;
        }
        Ok(())
    }
}

// Text as it stands.
pub(crate) fn text(rt: &impl Print, words: &[u8]) -> io::Result<()> {
    rt.write_all(words)
}

// A space, and a signed number in decimal.
pub(crate) fn number(rt: &impl Print, n: i32) -> io::Result<()> {
    print!(rt; " {n}")
}

// A space, and a number in decimal.
pub(crate) fn decimal(rt: &impl Print, n: u32) -> io::Result<()> {
    print!(rt; " {n}")
}

// A space, and a byte in two hexadecimal digits.
pub(crate) fn byte(rt: &impl Print, b: u8) -> io::Result<()> {
    print!(rt; " {b:02X}")
}

// A space, a byte in two hexadecimal digits, and a mark.
pub(crate) fn marked(rt: &impl Print, b: u8, mark: u8) -> io::Result<()> {
    print!(rt; " {b:02X}{}", mark as char)
}

// Bytes, each after a space.
pub(crate) fn bytes(rt: &impl Print, list: &[u8]) -> io::Result<()> {
    print!(rt; "{}", HexBytes(list))
}

// A map of known registers, where flags were given: its bytes, the highest first.
pub(crate) fn known(rt: &impl Print, given: bool, map: u64) -> io::Result<()> {
    if !given {
        return Ok(());
    }
    text(rt, b" known")?;
    bytes(rt, &map.to_be_bytes())
}

// Signed numbers, each after a space.
pub(crate) fn numbers(rt: &impl Print, list: &[i32]) -> io::Result<()> {
    print!(rt; "{}", Decimals(list))
}

// What an answer begins with: ok, or the refusal and its field.
pub(crate) fn verdict(rt: &impl Print, refusal: u32, field: u32) -> io::Result<()> {
    if refusal == 0 {
        return text(rt, b"ok");
    }
    text(rt, b"REFUSED")?;
    decimal(rt, refusal)?;
    decimal(rt, field)
}

// What is answered to a line that is no record.
pub(crate) fn no_record(rt: &impl Print) -> io::Result<()> {
    text(rt, b"NOT A RECORD")
}
