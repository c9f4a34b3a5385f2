// The fields that fill whole registers. In hexadecimal, a column after the other: field, index of its first number among the settings', how many numbers,
// first register, how many registers.
ghost use Rattle.std.specs.Prelude.{◌≡◌};
ghost use Rattle.adv7194_table.specs.Blocks.{block_of, blocks_of};
ghost use Rattle.adv7194_table.specs.Table.{table, blocks_in};

// A field that fills whole registers and has a coding of its own.
#[derive(Clone, Copy)]
pub struct Block {
    // the field's number
    pub field: u8,
    // the first of its numbers among the settings', and how many it has
    pub index: usize,
    pub numbers: usize,
    // its first register, and how many it has
    pub register: usize,
    pub registers: usize,
}

pub const SIGNALLING: u64 = 0x0B_0A_05_19_03;

pub const CURVE_A: u64 = 0x1A_1D_0A_26_07;

pub const CURVE_B: u64 = 0x1B_27_0A_2D_07;

pub const WORD: u64 = 0x1C_31_00_0C_04;

// A block from the number that it is packed in.
pub fn block_of(packed: u64) -> Block
    ensures answer { result ≡ block_of packed }
{
    Block {
        field: (packed / 0x1_0000_0000 % 0x100) as u8,
        index: (packed / 0x100_0000 % 0x100) as usize,
        numbers: (packed / 0x1_0000 % 0x100) as usize,
        register: (packed / 0x100 % 0x100) as usize,
        registers: (packed % 0x100) as usize,
    }
}

// All of them, in the checking order.
pub fn blocks() -> [u64; 4]
    ensures answer { blocks_of result ≡ blocks_in table }
{
    [SIGNALLING, CURVE_A, CURVE_B, WORD]
}
