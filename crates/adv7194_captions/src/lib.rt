// Captions: the registers of the two pairs, their characters with odd parity, and what a transaction of a pair is.
#![tactic(auto)]

ghost use Rattle.std.specs.Prelude.{◌≡◌, true};
ghost use Rattle.adv7194_captions.specs.Characters.{is_character, caption_byte, is_odd};
ghost use Rattle.adv7194_captions.specs.Pairs.{pair_right};
ghost use Rattle.adv7194_captions.specs.Plans.{at_pair};

use bits::parity::{odd_ones, with_parity};

// The first register of the extended pair and of the ordinary one.
pub const EXTENDED: u8 = 0x11;

pub const ORDINARY: u8 = 0x13;

// The registers of a pair.
pub const PAIR: usize = 2;

// The field number that a refusal of a pair carries.
pub const FIELD: u8 = 29;

// The bits of a character and of a byte.
const CHARACTER_BITS: u8 = 7;

const BYTE_BITS: u32 = 8;

// The highest character.
const HIGHEST_CHARACTER: i32 = 127;

// Whether a number is a character.
pub fn is_character(number: i32) -> bool
    ensures answer { result ≡ is_character number }
{
    (0..=HIGHEST_CHARACTER).contains(&number)
}

// The byte that a character leaves as: bit 7 makes its ones odd in number.
pub fn caption_byte(character: i32) -> u8
    requires { is_character character ≡ true }
    ensures answer { result ≡ caption_byte character }
{
    with_parity(character as u8, CHARACTER_BITS)
}

// Whether an odd number of a byte's bits are ones.
pub fn is_odd(byte: u8) -> bool
    ensures answer { result ≡ is_odd byte }
{
    odd_ones(byte as u32, BYTE_BITS)
}

// Whether a pair is not given, or is two characters.
pub fn pair_right(pair: &[i32]) -> bool
    ensures answer { result ≡ pair_right pair.now }
{
    match pair {
        [] => true,
        [first, second] => is_character(*first) & is_character(*second),
        _ => false,
    }
}

// Whether a transaction's subaddress and data count are a pair's.
pub fn at_pair(subaddress: u8, count: u8) -> bool
    ensures answer { result ≡ at_pair subaddress count }
{
    ((subaddress == EXTENDED) | (subaddress == ORDINARY)) & (count as usize == PAIR)
}
