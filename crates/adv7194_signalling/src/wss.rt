// WSS: a number of 14 bits, of which the four lowest hold an odd number of ones.
ghost use Rattle.std.specs.Prelude.{◌≡◌};
ghost use Rattle.refusals.specs.Refusal.{judged_as};
ghost use Rattle.adv7194_signalling.specs.Word.{three_bytes, coded_as};
ghost use Rattle.adv7194_signalling.specs.Wss.{wss_of, WssHeld};
ghost use Rattle.adv7194_signalling.specs.Signalling.{wss_held};
ghost use Rattle.adv7194_signalling.specs.Answers.{wss_numbers};

use crate::numbers::{NUMBER_TOP, within};
use crate::registers::Registers;
use crate::word::{joined, split};
use bits::parity::odd_ones;
use refusals::Refusal;

// The bit past W13 in the word.
const PAST_NUMBER: u32 = 0x4000;

// Bit 7 of register 19 in the word.
const WSS: u32 = 0x80_0000;

// How many bits hold an odd number of ones: W0 to W3.
const ODD_WIDTH: u32 = 4;

// The registers of a WSS number, or refusal 3 or 4.
pub fn wss_code(number: i32) -> Result<Registers, Refusal>
    ensures answer { coded_as result ≡ wss_of number }
{
    if within(number, NUMBER_TOP) {
        let w = number as u32;
        if odd_ones(w, ODD_WIDTH) {
            return Ok(split(w + WSS));
        }
        return Err(Refusal::Reserved);
    }
    Err(Refusal::OutOfRange)
}

// The WSS number that the registers hold, or refusal 4.
pub fn wss_setting(registers: Registers) -> Result<i32, Refusal>
    ensures answer { wss_numbers (judged_as result) ≡ wss_held (three_bytes registers) }
    ensures only { WssHeld (three_bytes registers) (judged_as result) }
{
    let word = joined(registers);
    let number = word % PAST_NUMBER;
    if (number + WSS == word) & odd_ones(number, ODD_WIDTH) {
        return Ok(number as i32);
    }
    Err(Refusal::Reserved)
}
