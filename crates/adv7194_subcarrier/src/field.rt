// Field 28, the subcarrier word in its four registers, by the settings of the standard and of square pixel.
ghost use Rattle.std.specs.Prelude.{◌≡◌, cond, [], ◌∷◌};
ghost use Rattle.bits.specs.Bytes.{same_bytes};
ghost use Rattle.refusals.specs.Refusal.{accepted, refused};
ghost use Rattle.field_table.specs.Blocks.{is};
ghost use Rattle.adv7194_subcarrier.specs.Subcarrier.{word_of, word_codes};
ghost use Rattle.adv7194_subcarrier.specs.Answers.{word_read_as};

use crate::{Standard, word};
use refusals::Refusal;

// The setting of the standard that is PAL; any other is NTSC. It stays a number, as C hands it in: `Standard` from a number would have to be refused or made
// up where the word has to be answered all the same.
const PAL: i32 = 1;

// The setting of square pixel that is a yes.
const YES: i32 = 1;

// The place of each byte in the word.
const BYTE_1: u32 = 0x100;

const BYTE_2: u32 = 0x1_0000;

const BYTE_3: u32 = 0x100_0000;

// The word by the two settings.
fn word_set(standard: i32, square: i32) -> u32
    ensures answer { result ≡ word_of (is 1 standard) (is 1 square) }
{
    if standard == PAL {
        return word(Standard::Pal, square == YES);
    }
    word(Standard::Ntsc, square == YES)
}

// The bytes of its registers, lowest first.
pub fn word_codes(standard: i32, square: i32) -> [u8; 4]
    ensures answer { result ≡ word_codes standard square }
{
    let w = word_set(standard, square);
    [
        (w % BYTE_1) as u8,
        (w / BYTE_1 % BYTE_1) as u8,
        (w / BYTE_2 % BYTE_1) as u8,
        (w / BYTE_3) as u8,
    ]
}

// Whether the bytes of the registers are the word's, or refusal 8.
pub fn word_setting(
    b0: u8,
    b1: u8,
    b2: u8,
    b3: u8,
    standard: i32,
    square: i32,
) -> Result<(), Refusal>
    ensures answer { word_read_as result ≡ cond (same_bytes (b0 ∷ b1 ∷ b2 ∷ b3 ∷ []) (word_codes standard square)) (accepted []) (refused 8) }
{
    let held = b0 as u32 + b1 as u32 * BYTE_1 + b2 as u32 * BYTE_2 + b3 as u32 * BYTE_3;
    if held == word_set(standard, square) {
        return Ok(());
    }
    Err(Refusal::Disagreement)
}
