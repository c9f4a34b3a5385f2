// Where a row's number and its bits are. What is written is written by index and not by `get_mut`, whose None leaves the proof no fact that the slice stays.
ghost use Rattle.std.specs.Prelude.{◌≡◌, ◌+◌, ◌^◌, ◌≤◌, ◌<◌, get_or, set};
ghost use Rattle.bits.specs.Fields.{with_field as with_field_of};
ghost use Rattle.field_table.specs.Walk.{given as given_of, held as held_of};

use crate::row::Row;
use bits::fields::{field, with_field};

// A row's setting among the numbers; 0 where its index is past them.
pub fn given(numbers: &[i32], row: Row) -> i32
    ensures answer { result ≡ given_of numbers.now row }
{
    numbers.get(row.index).copied().unwrap_or(0)
}

// A number stored at a row's index; past the numbers there is none.
pub fn store(numbers: &mut [i32], row: Row, number: i32)
    ensures memory { numbers.new ≡ set numbers.old row.index number }
{
    let at = row.index;
    if at < numbers.len() {
        numbers[at] = number;
    }
}

// The code that an image holds in a row's bits; 0 where it has no such register.
pub fn held(image: &[u8], row: Row) -> u8
    requires { row.bit + row.width ≤ 8 }
    ensures answer { result ≡ held_of image.now row }
{
    image
        .get(row.register)
        .map_or(0, |byte| field(*byte, row.bit, row.width))
}

// A row's bits set to a code, in an image that has its register.
pub(crate) fn put(image: &mut [u8], row: Row, code: u8)
    requires { (row.bit + row.width ≤ 8) × (code < 2 ^ row.width) }
    ensures memory { image.new ≡ set image.old row.register (with_field_of row.bit row.width (get_or image.old row.register 0) code) }
{
    let at = row.register;
    if at < image.len() {
        image[at] = with_field(image[at], row.bit, row.width, code);
    }
}
