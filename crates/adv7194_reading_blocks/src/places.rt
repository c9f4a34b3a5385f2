// A register of an image, and numbers among the settings'.
ghost use Rattle.std.specs.Prelude.{◌≡◌, ◌+◌, ◌^◌, ◌<◌, get_or, length, set};
ghost use Rattle.field_table.specs.Blocks.{store_from};

// The byte of a register; 0 where the image has no such register.
pub(crate) fn byte(image: &[u8], register: usize) -> u8
    ensures answer { result ≡ get_or image.now register 0 }
{
    image.get(register).copied().unwrap_or(0)
}

// A number stored at an index; past the numbers there is no place.
fn store(numbers: &mut [i32], index: usize, number: i32)
    ensures memory { numbers.new ≡ set numbers.old index number }
{
    if index < numbers.len() {
        numbers[index] = number;
    }
}

// Numbers stored one after the other, from an index on.
pub(crate) fn keep(numbers: &mut [i32], index: usize, values: &[i32])
    requires { index + length values.now < 2 ^ 32 }
    ensures memory { numbers.new ≡ store_from numbers.old index values.now }
{
    for (i, value) in values.iter().enumerate() {
        store(numbers, index + i, *value);
    }
}
