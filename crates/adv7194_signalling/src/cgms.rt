// CGMS: a payload of 14 bits, six check bits, and the fields that carry them.
ghost use Rattle.std.specs.Prelude.{◌≡◌, ◌^◌, ◌<◌, eqb};
ghost use Rattle.bits.specs.Strings.{lsb_value};
ghost use Rattle.refusals.specs.Refusal.{judged_as};
ghost use Rattle.adv7194_signalling.specs.Word.{three_bytes, coded_as};
ghost use Rattle.adv7194_signalling.specs.Cgms.{cgms_bits, cgms_of, CgmsHeld};
ghost use Rattle.adv7194_signalling.specs.Signalling.{cgms_held};
ghost use Rattle.adv7194_signalling.specs.Answers.{cgms_numbers};

use crate::check::check_bits;
use crate::numbers::{NUMBER_TOP, YES_TOP, within};
use crate::registers::Registers;
use crate::word::{joined, split};
use refusals::Refusal;

// A CGMS setting: the payload, and three yes/no numbers: sent in odd fields, sent in even fields, and the chip check (document 01's
// term), by which the chip works out the check bits itself.
#[derive(Clone, Copy)]
pub struct CgmsSetting {
    pub payload: i32,
    pub odd: i32,
    pub even: i32,
    pub chip_check: i32,
}

// C14, the first check bit, in the word.
const FIRST_CHECK: u32 = 0x4000;

// Bit 4 of register 19 in the word.
const CHIP_CHECK: u32 = 0x10_0000;

// Bit 5 of register 19 in the word.
const ODD_FIELD: u32 = 0x20_0000;

// Bit 6 of register 19 in the word.
const EVEN_FIELD: u32 = 0x40_0000;

// The word of a setting that is in its range.
pub fn cgms_word(payload: u32, odd: u32, even: u32, chip: u32) -> u32
    requires { (payload < 2 ^ 14) × (odd < 2) × (even < 2) × (chip < 2) }
    ensures answer { result ≡ lsb_value (cgms_bits payload (eqb odd 1) (eqb even 1) (eqb chip 1)) }
{
    payload
        + check_bits(payload) * FIRST_CHECK
        + chip * CHIP_CHECK
        + odd * ODD_FIELD
        + even * EVEN_FIELD
}

// The registers of a CGMS setting, or refusal 3.
pub fn cgms_code(payload: i32, odd: i32, even: i32, chip_check: i32) -> Result<Registers, Refusal>
    ensures answer { coded_as result ≡ cgms_of payload odd even chip_check }
{
    let inside = within(payload, NUMBER_TOP)
        & within(odd, YES_TOP)
        & within(even, YES_TOP)
        & within(chip_check, YES_TOP);
    if inside {
        let word = cgms_word(payload as u32, odd as u32, even as u32, chip_check as u32);
        return Ok(split(word));
    }
    Err(Refusal::OutOfRange)
}

// The CGMS setting that the registers hold, or refusal 8: the setting put in the word, with its check bits, is coded again and compared.
pub fn cgms_setting(registers: Registers) -> Result<CgmsSetting, Refusal>
    ensures answer { cgms_numbers (judged_as result) ≡ cgms_held (three_bytes registers) }
    ensures only { CgmsHeld (three_bytes registers) (judged_as result) }
{
    let word = joined(registers);
    let payload = word % FIRST_CHECK;
    let odd = word / ODD_FIELD % 2;
    let even = word / EVEN_FIELD % 2;
    let chip = word / CHIP_CHECK % 2;
    if cgms_word(payload, odd, even, chip) == word {
        return Ok(CgmsSetting {
            payload: payload as i32,
            odd: odd as i32,
            even: even as i32,
            chip_check: chip as i32,
        });
    }
    Err(Refusal::Disagreement)
}
