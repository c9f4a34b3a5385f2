// A row of a table of fields.
ghost use Rattle.std.specs.Prelude.{◌≡◌, ◌||◌, ◌<◌};
ghost use Rattle.std.specs.Int.Signed.{lt_z};
ghost use Rattle.field_table.specs.Rows.{signed12 as signed12_of, row_of};
ghost use Rattle.field_table.specs.Coding.{outside as outside_of};

// A field of one number, or must-be-zero bits.
#[derive(Clone, Copy)]
pub struct Row {
    // the field's number
    pub field: u8,
    // where its setting stands among the settings' numbers; past them for must-be-zero bits
    pub index: usize,
    // its register, the lowest of its bits there, and how many it has
    pub register: usize,
    pub bit: u8,
    pub width: u8,
    // its lowest and its highest setting
    pub low: i32,
    pub high: i32,
    // the refusal of a code that is no setting's: 3, or 4 where such a code is reserved. A number, as it is packed: any but 3 counts as 4, so that what is
    // proved of refusals holds of every row, which a row with any `Refusal` in it would break
    pub outside: u8,
}

// A number of 12 bits, read as two's complement.
fn signed12(n: u32) -> i32
    requires { n < 0x1000 }
    ensures answer { result ≡ signed12_of n }
{
    if n < 0x800 {
        return n as i32;
    }
    n as i32 - 0x1000
}

// A row from the number that it is packed in.
pub fn row_of(packed: u64) -> Row
    ensures answer { result ≡ row_of packed }
{
    Row {
        field: (packed / 0x100_0000_0000_0000 % 0x100) as u8,
        index: (packed / 0x1_0000_0000_0000 % 0x100) as usize,
        register: (packed / 0x100_0000_0000 % 0x100) as usize,
        bit: (packed / 0x10_0000_0000 % 0x10) as u8,
        width: (packed / 0x1_0000_0000 % 0x10) as u8,
        low: signed12((packed / 0x10_0000 % 0x1000) as u32),
        high: signed12((packed / 0x100 % 0x1000) as u32),
        outside: (packed % 0x100) as u8,
    }
}

// Whether s is below the lowest setting or above the highest.
pub(crate) fn outside(s: i32, low: i32, high: i32) -> bool
    ensures answer { result ≡ (lt_z s low || lt_z high s) }
{
    s < low || high < s
}

// Whether a number is none of a row's settings.
pub fn out_of_range(packed: u64, number: i32) -> bool
    ensures answer { result ≡ outside_of (row_of packed) number }
{
    let row = row_of(packed);
    outside(number, row.low, row.high)
}
