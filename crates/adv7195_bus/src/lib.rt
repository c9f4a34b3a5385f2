// The ADV7195 in progressive-scan mode as a chip on the bus: how many registers it has, the rule for what is written to it, and the bit that needs preparing.
#![tactic(auto)]

ghost use Rattle.std.specs.Prelude.{◌≡◌};
ghost use Rattle.std.specs.Bool.{xor};
ghost use Rattle.bits.specs.Maps.{has};
ghost use Rattle.adv7195_bus.specs.Rules.{keeps_rules};
ghost use Rattle.adv7195_bus.specs.Order.{interpolation_bit};

// How many registers the chip has: 00 to 27.
pub const REGISTERS: u32 = 0x28;

// The map of the registers that a byte may be written to: 00 to 09 and 10 to 27.
pub const WRITABLE: u64 = 0xFF_FFFF_03FF;

// Mode Register 3, which holds the interpolation bit.
pub const MODE_REGISTER_3: usize = 0x03;

// Mode Register 6, to which a byte is written before the interpolation bit is flipped.
pub const MODE_REGISTER_6: usize = 0x09;

// That byte.
pub const PREPARING_BYTE: u8 = 0x3E;

// The interpolation bit, MR36.
const INTERPOLATION: u8 = 0x40;

// The first register that the data sheet doesn't name, and the first past those.
const UNNAMED: u32 = 0x0A;

const NAMED_AGAIN: u32 = 0x10;

// Whether two bytes of Mode Register 3 differ in the interpolation bit.
pub fn flips(before: u8, after: u8) -> bool
    ensures answer { result ≡ xor (has before interpolation_bit) (has after interpolation_bit) }
{
    (before ^ after) & INTERPOLATION != 0
}

// Whether a write transaction with this subaddress and that many data bytes keeps the rule.
#[tactic(auto, unfolding(crate::specs::Rules::keeps_rules))]
pub fn keeps_rules(subaddress: u8, count: u8) -> bool
    ensures answer { result ≡ keeps_rules subaddress count }
{
    let start = subaddress as u32;
    let end = start + count as u32;
    (count == 0) | ((end <= REGISTERS) & ((end <= UNNAMED) | (NAMED_AGAIN <= start)))
}
