// Which fields of two images differ, and which registers do in bits outside all fields. Both are maps: bit n is set for field or register n.
ghost use Rattle.std.specs.Prelude.{◌≡◌, ◌<◌};
ghost use Rattle.adv7194_bus.specs.Kind.{register_count};
ghost use Rattle.adv7194_compare.specs.Differences.{field_differs, fields_differing, register_differs, registers_differing, map_of};

use adv7194_bus::REGISTERS;
use adv7194_table::{outside_bits, own_bits};

// The last field's number.
pub const LAST_FIELD: u8 = 28;

// The register that is only read, which is never compared.
const READ_ONLY: usize = 0x34;

// Two images of the right length: whether reading takes both, the fields that differ, and the registers that differ in bits outside all fields. Bit n of
// a map is set for field or register n.
#[derive(Clone, Copy, PartialEq, Eq)]
pub struct Differences {
    pub readable: bool,
    pub fields: u32,
    pub registers: u64,
}

// Whether a field differs: whether any of its bits does, must-be-zero bits too.
pub fn field_differs(a: &[u8], b: &[u8], field: u8) -> bool
    ensures answer { result ≡ field_differs a.now b.now field }
{
    (0..REGISTERS as usize).any(|register| own_bits(a, field, register)
        != own_bits(b, field, register))
}

// The fields that differ.
pub fn fields_differing(a: &[u8], b: &[u8]) -> u32
    ensures answer { result ≡ map_of (fields_differing a.now b.now) }
{
    let mut map: u32 = 0;
    for field in 1..=LAST_FIELD {
        if field_differs(a, b, field) {
            map += 1 << field;
        }
    }
    map
}

// Whether a register differs in bits outside all fields.
pub fn register_differs(a: &[u8], b: &[u8], register: usize) -> bool
    requires { register < register_count }
    ensures answer { result ≡ register_differs a.now b.now register }
{
    if register == READ_ONLY {
        return false;
    }
    outside_bits(a, register) != outside_bits(b, register)
}

// The registers that do.
pub fn registers_differing(a: &[u8], b: &[u8]) -> u64
    ensures answer { result ≡ map_of (registers_differing a.now b.now) }
{
    let mut map: u64 = 0;
    for register in 0..REGISTERS as usize {
        if register_differs(a, b, register) {
            map += 1 << register;
        }
    }
    map
}
