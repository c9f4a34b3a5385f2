// Numbers as text: decimal, signed decimal and a byte in hexadecimal.
ghost use Rattle.std.specs.Prelude.{◌≡◌, ◌<◌};
ghost use Rattle.text.specs.Line.{place_after, appended};
ghost use Rattle.text.specs.Text.{hex_byte, hex_digit};
ghost use Rattle.text.specs.Text.{decimal as Text·decimal};
ghost use Rattle.text.specs.Text.{signed as Text·signed};
ghost use Rattle.text.specs.DecimalDigits.{decimal_digits};

use crate::append;

// The bytes that hold any 64-bit number and a sign.
const WIDTH: usize = 21;

// The place of a number's last digit.
const LAST: usize = WIDTH - 1;

// A number's digits: the bytes from `first` on. Those before are zero. The place stands beside the bytes because DecimalDigits, which says what these are for
// every number, is stated over both.
#[derive(Clone, Copy)]
pub struct Digits {
    pub bytes: [u8; WIDTH],
    pub first: usize,
}

// The decimal digits of a number.
pub fn decimal_digits(n: u64) -> Digits
    ensures answer { result ≡ decimal_digits n }
{
    let mut bytes = [0u8; WIDTH];
    let mut first: usize = LAST;
    bytes[LAST] = b'0' + (n % 10) as u8;
    let mut rest = n / 10;
    // The digits come from the last on, and how many there are is known at the end: no iterator is plainer.
    while rest > 0 {
        first -= 1;
        bytes[first] = b'0' + (rest % 10) as u8;
        rest /= 10;
    }
    Digits { bytes, first }
}

// Appends a number in decimal.
pub fn decimal(line: &mut [u8], at: usize, n: u64) -> Option<usize>
    ensures answer { result ≡ place_after line.old at (Text·decimal n) }
    ensures memory { line.new ≡ appended line.old at (Text·decimal n) }
{
    let d = decimal_digits(n);
    append(line, at, &d.bytes[d.first..])
}

// Appends a signed number in decimal.
pub fn signed(line: &mut [u8], at: usize, n: i32) -> Option<usize>
    ensures answer { result ≡ place_after line.old at (Text·signed n) }
    ensures memory { line.new ≡ appended line.old at (Text·signed n) }
{
    if n < 0 {
        let d = decimal_digits(u64::from(n.unsigned_abs()));
        let mut bytes = d.bytes;
        let sign = d.first - 1;
        bytes[sign] = b'-';
        return append(line, at, &bytes[sign..]);
    }
    decimal(line, at, n as u64)
}

// The ASCII code of a hexadecimal digit, in capitals.
fn hex_digit(d: u8) -> u8
    requires { d < 16 }
    ensures answer { result ≡ hex_digit d }
{
    if d < 10 { 0x30 + d } else { 0x37 + d }
}

// Appends a byte in two hexadecimal digits.
#[tactic(auto, unfolding(crate::specs::Text::hex_byte))]
pub fn hex_byte(line: &mut [u8], at: usize, b: u8) -> Option<usize>
    ensures answer { result ≡ place_after line.old at (hex_byte b) }
    ensures memory { line.new ≡ appended line.old at (hex_byte b) }
{
    append(line, at, &[hex_digit(b / 16), hex_digit(b % 16)])
}
