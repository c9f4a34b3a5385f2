// Reading a pair of captions back: the two characters that a board holds.
#![tactic(auto)]

ghost use Rattle.std.specs.Prelude.{◌≡◌};
ghost use Rattle.refusals.specs.Order.{Exactly};
ghost use Rattle.adv7194_bus.specs.Board.{board_of};
ghost use Rattle.adv7194_captions.specs.Reading.{caption_read_row, caption_read_order, characters_in, caption_reading};
ghost use Rattle.adv7194_caption_reading.specs.Answers.{read_as};

use adv7194_bus::REGISTERS;
use adv7194_captions::{EXTENDED, FIELD, PAIR, is_odd};
use bits::maps::has;
use refusals::{Fault, NO_FIELD, Refusal};

// How many pairs there are: 0 the extended one, 1 the ordinary one.
const PAIRS: u32 = 2;

// How many characters there are: a byte's lowest seven bits are one of them.
const CHARACTERS: u8 = 0x80;

// The two characters of a pair.
#[derive(Clone, Copy)]
pub struct Captions {
    pub first: u8,
    pub second: u8,
}

// Reads a pair of characters, by the pair's number, from a board: an image and the map of its known registers. The byte of a register that is not known
// means nothing.
pub fn read_captions(image: &[u8], known: u64, pair: u32) -> Result<Captions, Fault>
    ensures answer { read_as result ≡ caption_reading (board_of image.now known) pair }
    ensures exactly { Exactly (caption_read_row (board_of image.now known) pair) caption_read_order (characters_in image.now pair)
        (read_as result) }
{
    if image.len() != REGISTERS as usize {
        return Err(Refusal::ImageLength.at(NO_FIELD));
    }
    if PAIRS <= pair {
        return Err(Refusal::OutOfRange.at(FIELD));
    }
    let at = EXTENDED as usize + PAIR * pair as usize;
    if !(has(known, at as u64) & has(known, (at + 1) as u64)) {
        return Err(Refusal::RegisterUnknown.at(FIELD));
    }
    let first = image[at];
    let second = image[at + 1];
    if !(is_odd(first) & is_odd(second)) {
        return Err(Refusal::Reserved.at(FIELD));
    }
    Ok(Captions {
        first: first % CHARACTERS,
        second: second % CHARACTERS,
    })
}
