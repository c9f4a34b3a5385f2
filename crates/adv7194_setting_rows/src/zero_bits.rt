// Must-be-zero bits, register by register of the chip's table of them.
ghost use Rattle.std.specs.Prelude.{◌≡◌, ◌-◌, ◌^◌, ◌<◌, get_or, set};
ghost use Rattle.std.specs.Int.Bits.{bit_and};
ghost use Rattle.field_table.specs.Rows.{row_of};
ghost use Rattle.adv7194_table.specs.Masks.{zero_masks};

use adv7194_table::must_be_zero;
use field_table::row::row_of;

// A byte without the bits of a mask. That it is a byte is said too, which an element of a lent slice doesn't show.
fn without(byte: u8, mask: u8) -> u8
    ensures answer { result ≡ bit_and byte (255 - mask) }
    ensures small { byte < 2 ^ 8 }
{
    byte & !mask
}

// The must-be-zero bits of a row's register cleared, in an image that has it.
pub(crate) fn clear_zero_bits(packed: u64, image: &mut [u8])
    ensures memory { image.new ≡ set image.old (row_of packed).register (bit_and (get_or image.old (row_of packed).register 0) (255 - get_or zero_masks (row_of packed).register 0)) }
    ensures small { get_or image.old (row_of packed).register 0 < 2 ^ 8 }
{
    let register = row_of(packed).register;
    if register < image.len() {
        image[register] = without(image[register], must_be_zero(register));
    }
}
