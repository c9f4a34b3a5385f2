// The bits of a register that count to a field, must-be-zero bits too, and what an image has in them and in the bits outside all fields. Field and register
// stay two parameters, and that the chip has the register a `requires` of each function: a type for it would be a narrower one than callers pass, who have a
// number that a loop counts, at which the `requires` proves by itself. The rows' and the blocks' sum are two loops, as their rows are of two types.
ghost use Rattle.std.specs.Prelude.{◌≡◌, cond, ◌-◌, ◌*◌, ◌^◌, ◌<◌, ◌≤◌, eqb, get_or};
ghost use Rattle.field_table.specs.Rows.{row_of};
ghost use Rattle.adv7194_bus.specs.Kind.{register_count};
ghost use Rattle.adv7194_table.specs.Blocks.{block_of};
ghost use Rattle.adv7194_table.specs.Table.{table, single_fields, rows_in, blocks_in};
ghost use Rattle.field_table.specs.Masks.{row_bits};
ghost use Rattle.adv7194_table.specs.Masks.{block_bits, rows_mask, blocks_mask, own_mask, setting_mask};
ghost use Rattle.adv7194_table.specs.RawCodes.{own_bits, setting_bits, zero_bits, outside_bits};

use crate::blocks::{block_of, blocks};
use crate::masks::{field_masks, must_be_zero, outside};
use crate::rows::rows;
use field_table::row::row_of;

// Adjacent bits: so many of them from a bit up.
fn adjacent(bit: u8, width: u8) -> u64
    requires { (bit < 16) × (width < 16) }
    ensures answer { result ≡ (2 ^ width - 1) * 2 ^ bit }
    ensures small { result < 2 ^ 32 }
{
    ((1u64 << width) - 1) * (1u64 << bit)
}

// Those that a packed row has, where it is the field's.
fn row_bits(packed: u64, field: u8, register: usize) -> u64
    ensures answer { result ≡ cond (eqb (row_of packed).field field) (row_bits (row_of packed) register) 0 }
    ensures small { result < 2 ^ 32 }
{
    let row = row_of(packed);
    if row.field != field {
        return 0;
    }
    if row.register != register {
        return 0;
    }
    adjacent(row.bit, row.width)
}

// Those that a packed block has, where it is the field's.
fn block_bits(packed: u64, field: u8, register: usize) -> u64
    ensures answer { result ≡ cond (eqb (block_of packed).field field) (block_bits (block_of packed) register) 0 }
    ensures small { result < 2 ^ 32 }
{
    let block = block_of(packed);
    if block.field != field {
        return 0;
    }
    if register < block.register {
        return 0;
    }
    if block.register + block.registers <= register {
        return 0;
    }
    0xFF
}

// Those that the rows have.
fn rows_mask(field: u8, register: usize) -> u64
    ensures answer { result ≡ rows_mask field register (rows_in (single_fields table)) }
    ensures small { result ≤ 26 * 2 ^ 32 }
{
    let mut mask = 0;
    for packed in rows() {
        mask += row_bits(packed, field, register);
    }
    mask
}

// Those that the blocks have.
fn blocks_mask(field: u8, register: usize) -> u64
    ensures answer { result ≡ blocks_mask field register (blocks_in table) }
    ensures small { result ≤ 4 * 2 ^ 32 }
{
    let mut mask = 0;
    for packed in blocks() {
        mask += block_bits(packed, field, register);
    }
    mask
}

// The bits of a register that count to a field.
pub fn own_mask(field: u8, register: usize) -> u8
    requires { register < register_count }
    ensures answer { result ≡ own_mask field register }
{
    (rows_mask(field, register) + blocks_mask(field, register)) as u8
}

// The byte of a register; 0 where an image has no such register.
fn byte_of(image: &[u8], register: usize) -> u8
    ensures answer { result ≡ get_or image.now register 0 }
{
    image.get(register).copied().unwrap_or(0)
}

// What an image has in them, every other bit zero; 0 where it has no such register.
pub fn own_bits(image: &[u8], field: u8, register: usize) -> u8
    requires { register < register_count }
    ensures answer { result ≡ own_bits image.now field register }
{
    byte_of(image, register) & own_mask(field, register)
}

// The bits of a register that belong to a field, must-be-zero bits apart.
fn setting_mask(field: u8, register: usize) -> u8
    requires { register < register_count }
    ensures answer { result ≡ setting_mask field register }
{
    let own = own_mask(field, register);
    let masks = field_masks();
    own & masks[register]
}

// What an image has in them, every other bit zero; 0 where it has no such register.
pub fn setting_bits(image: &[u8], field: u8, register: usize) -> u8
    requires { register < register_count }
    ensures answer { result ≡ setting_bits image.now field register }
{
    byte_of(image, register) & setting_mask(field, register)
}

// What an image has in a register's must-be-zero bits, every other bit zero; 0 where it has no such register.
pub fn zero_bits(image: &[u8], register: usize) -> u8
    requires { register < register_count }
    ensures answer { result ≡ zero_bits image.now register }
{
    byte_of(image, register) & must_be_zero(register)
}

// What an image has in a register's bits outside all fields, every other bit zero; 0 where it has no such register.
pub fn outside_bits(image: &[u8], register: usize) -> u8
    requires { register < register_count }
    ensures answer { result ≡ outside_bits image.now register }
{
    byte_of(image, register) & outside(register)
}
