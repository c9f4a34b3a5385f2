// The word of 24 bits that the signalling registers hold: 1B is its lowest byte, 19 its highest.
ghost use Rattle.std.specs.Prelude.{◌≡◌, [], ◌∷◌, ◌+◌, ◌*◌, ◌/◌, ◌%◌, ◌^◌, ◌<◌};
ghost use Rattle.adv7194_signalling.specs.Word.{three_bytes};

use crate::registers::Registers;

// The registers of a word.
pub fn split(word: u32) -> Registers
    requires { word < 2 ^ 24 }
    ensures answer { three_bytes result ≡ word / 2 ^ 16 ∷ word / 2 ^ 8 % 2 ^ 8 ∷ word % 2 ^ 8 ∷ [] }
{
    Registers {
        r19: (word >> 16) as u8,
        r1a: ((word >> 8) % 256) as u8,
        r1b: (word % 256) as u8,
    }
}

// The word of the registers.
pub fn joined(registers: Registers) -> u32
    ensures answer { result ≡ registers.r19 * 2 ^ 16 + registers.r1a * 2 ^ 8 + registers.r1b }
{
    registers.r19 as u32 * 0x1_0000 + registers.r1a as u32 * 0x100 + registers.r1b as u32
}
