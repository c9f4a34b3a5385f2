// Bits and whole registers placed in an image.
ghost use Rattle.std.specs.Prelude.{◌≡◌, ◌+◌, ◌^◌, ◌≤◌, ◌<◌, length};
ghost use Rattle.field_table.specs.Writes.{put as put_of, puts};
ghost use Rattle.field_table.specs.Blocks.{byte_writes};
ghost use Rattle.adv7194_table.specs.Blocks.{block_of};

use adv7194_table::blocks::block_of;
use bits::fields::with_field;

// How many bits a register has.
const WIDTH: u8 = 8;

// Some bits of a register set, from bit `place` up, in an image that has it.
pub(crate) fn put(image: &mut [u8], register: usize, place: u8, width: u8, value: u8)
    requires { (place + width ≤ 8) × (value < 2 ^ width) }
    ensures memory { image.new ≡ put_of image.old (record { register = register; place = place; width = width; value = value }) }
{
    if register < image.len() {
        image[register] = with_field(image[register], place, width, value);
    }
}

// The registers of a block set to bytes, from the first on.
pub(crate) fn put_bytes(packed: u64, bytes: &[u8], image: &mut [u8])
    requires { length bytes.now ≤ 8 }
    ensures memory { image.new ≡ puts image.old (byte_writes (block_of packed).register bytes.now) }
{
    let first = block_of(packed).register;
    for (i, byte) in bytes.iter().enumerate() {
        put(image, first + i, 0, WIDTH, *byte);
    }
}
