// The registers of each field, and the lowest field that has one of some registers.
ghost use Rattle.std.specs.Prelude.{◌≡◌};
ghost use Rattle.bits.specs.Maps.{has};
ghost use Rattle.adv7194_table.specs.Registers.{field_registers, lowest_field};

// The map of each field's registers, by its number.
const FIELD_REGISTERS: [u64; 29] = [
    0x0,
    0x1,
    0x4,
    0x2,
    0x4,
    0x20,
    0x20,
    0x20,
    0x20,
    0x20,
    0x1_0000,
    0xE00_0000,
    0x2000_0000,
    0x4000_0000,
    0x8000_0000,
    0x1_0000_0000,
    0x2_0000_0000,
    0x4_0000_0000,
    0x8_0000_0000,
    0x8_0000_0000,
    0x10_0000_0000,
    0x10_0000_0000,
    0x10_0000_0000,
    0x20_0000_0000,
    0x20_0000_0000,
    0x20_0000_0000,
    0x1FC0_0000_0000,
    0xF_E000_0000_0000,
    0xF000,
];

// The map of the registers of all fields.
const ALL_FIELDS: u64 = 0xF_FFFF_EE01_F027;

// The map of the registers of each field.
pub fn field_registers() -> [u64; 29]
    ensures answer { result ≡ field_registers }
{
    FIELD_REGISTERS
}

// The lowest field that has a register of a map, or 0.
pub fn lowest_field(map: u64) -> u8
    ensures answer { result ≡ lowest_field (has map) }
{
    if map & ALL_FIELDS == 0 {
        return 0;
    }
    field_registers()
        .iter()
        .position(|registers| registers & map != 0)
        .unwrap_or(0) as u8
}
