// A gamma curve, field 26 or 27: its ten numbers coded as seven bytes, and the seven bytes of an image.
ghost use Rattle.std.specs.Prelude.{◌≡◌, true, cond, map, ◌+◌, ◌≤◌, leb, nat_abs, length, drop};
ghost use Rattle.refusals.specs.Refusal.{accepted, refused};
ghost use Rattle.adv7194_gamma.specs.Curve.{all_bytes, curve_codes};
ghost use Rattle.adv7194_gamma.specs.Answer.{bytes_in, judged};
ghost use Rattle.field_table.specs.Blocks.{slice};

use crate::{Points, curve};
use refusals::Refusal;

// The kinds: the ratio of the second number and the third, and the bytes that follow them. They are told apart in `curve_code` alone, on the number that C hands
// in: an enum and its conversion would be longer than the two tests.
const RATIO: i32 = 0;

const BYTES: i32 = 1;

// Where the bytes begin among the numbers, and how many they are.
const FIRST_BYTE: usize = 3;

const BYTE_COUNT: usize = 7;

// The highest byte.
const BYTE_TOP: i32 = 255;

// Whether each of the numbers that stand for bytes is one.
fn all_bytes(numbers: &[i32]) -> bool
    requires { 3 ≤ length numbers.now }
    ensures answer { result ≡ all_bytes (drop 3 numbers.now) }
{
    numbers[FIRST_BYTE..]
        .iter()
        .all(|number| (0 <= *number) & (*number <= BYTE_TOP))
}

// Those bytes.
fn points(numbers: &[i32]) -> Points
    requires { (length numbers.now ≡ 10) × (all_bytes (drop 3 numbers.now) ≡ true) }
    ensures answer { bytes_in result ≡ map nat_abs (drop 3 numbers.now) }
{
    Points {
        b0: numbers[FIRST_BYTE] as u8,
        b1: numbers[FIRST_BYTE + 1] as u8,
        b2: numbers[FIRST_BYTE + 2] as u8,
        b3: numbers[FIRST_BYTE + 3] as u8,
        b4: numbers[FIRST_BYTE + 4] as u8,
        b5: numbers[FIRST_BYTE + 5] as u8,
        b6: numbers[FIRST_BYTE + 6] as u8,
    }
}

// The curve of ten numbers, or refusal 3.
pub fn curve_code(numbers: &[i32]) -> Result<Points, Refusal>
    requires { length numbers.now ≡ 10 }
    ensures answer { judged result ≡ curve_codes numbers.now }
{
    if numbers[0] == RATIO {
        return curve(numbers[1], numbers[2]);
    }
    if numbers[0] == BYTES {
        if all_bytes(numbers) {
            return Ok(points(numbers));
        }
    }
    Err(Refusal::OutOfRange)
}

// The curve in the seven registers from this one on, or refusal 1.
pub fn curve_setting(image: &[u8], register: usize) -> Result<Points, Refusal>
    ensures answer { judged result ≡ cond (leb (register + 7) (length image.now)) (accepted (slice 0 image.now register 7)) (refused 1) }
{
    if image.len() < BYTE_COUNT {
        return Err(Refusal::ImageLength);
    }
    if image.len() - BYTE_COUNT < register {
        return Err(Refusal::ImageLength);
    }
    Ok(Points {
        b0: image[register],
        b1: image[register + 1],
        b2: image[register + 2],
        b3: image[register + 3],
        b4: image[register + 4],
        b5: image[register + 5],
        b6: image[register + 6],
    })
}
