// The registers of a map that are nearest to a register, and those of the subcarrier word that go with it.
ghost use Rattle.std.specs.Prelude.{◌≡◌, ◌<◌};
ghost use Rattle.bits.specs.Maps.{has};
ghost use Rattle.adv7194_bus.specs.Kind.{register_count};
ghost use Rattle.adv7194_reasons.specs.Reasons.{with_other, next_below, next_above};

use adv7194_bus::{REGISTERS, WORD};

// Whether a register is one of the subcarrier word's, another of which is in a map.
pub fn with_other(map: u64, register: usize) -> bool
    requires { register < register_count }
    ensures answer { result ≡ with_other (has map) register }
{
    if !bits::maps::has(WORD, register as u64) {
        return false;
    }
    (map & WORD) & !(1 << register) != 0
}

// The register of a map next below a register, 0 where there is none.
pub fn next_below(map: u64, register: usize) -> u8
    requires { register < register_count }
    ensures answer { result ≡ next_below (has map) register }
{
    for at in (0..register).rev() {
        if bits::maps::has(map, at as u64) {
            return at as u8;
        }
    }
    0
}

// The register of a map next above a register, the one past the last where there is none.
pub fn next_above(map: u64, register: usize) -> u8
    requires { register < register_count }
    ensures answer { result ≡ next_above (has map) register }
{
    for at in register + 1..REGISTERS as usize {
        if bits::maps::has(map, at as u64) {
            return at as u8;
        }
    }
    REGISTERS as u8
}
