// An image of the ADV7195 judged and read: the settings that it holds, as 58 numbers.
#![tactic(auto)]

ghost use Rattle.std.specs.Prelude.{◌≡◌, length};
ghost use Rattle.refusals.specs.Verdict.{verdict_as};
ghost use Rattle.refusals.specs.Order.{Exactly};
ghost use Rattle.adv7195_settings.specs.Reading.{row_read, read_order, read_of, read_left};

use adv7195_bus::REGISTERS;
use adv7195_settings::{NUMBERS, PARTS, numbers_of, rows};
use refusals::{Fault, NO_FIELD, Refusal};

// The settings of an image, left in the 58 lent numbers; on a refusal these are as they were.
pub fn read(image: &[u8], numbers: &mut [i32]) -> Result<(), Fault>
    ensures answer { verdict_as result ≡ read_of image.now (length numbers.old) }
    ensures memory { numbers.new ≡ read_left image.now numbers.old }
    ensures exactly { Exactly (row_read image.now (length numbers.old)) read_order tt (verdict_as result) }
{
    if image.len() != REGISTERS as usize {
        return Err(Refusal::ImageLength.at(NO_FIELD));
    }
    if numbers.len() != NUMBERS {
        return Err(Refusal::OutOfRange.at(NO_FIELD));
    }
    let mut parts = [0i32; PARTS];
    field_table::read(&rows(), image, &mut parts)?;
    numbers_of(&parts, numbers);
    Ok(())
}
