// The house setting, handed out as reading hands out settings.
ghost use Rattle.std.specs.Prelude.{◌≡◌, length};
ghost use Rattle.refusals.specs.Verdict.{verdict_as};
ghost use Rattle.adv7194_settings.specs.House.{house_of, house_left};

use adv7194_settings::{NUMBERS, house};
use refusals::{Fault, NO_FIELD, Refusal};

// The house setting, left in the 49 lent numbers; on a refusal these are as they were.
pub fn read_house(numbers: &mut [i32]) -> Result<(), Fault>
    ensures answer { verdict_as result ≡ house_of (length numbers.old) }
    ensures memory { numbers.new ≡ house_left numbers.old }
{
    if numbers.len() != NUMBERS {
        return Err(Refusal::OutOfRange.at(NO_FIELD));
    }
    // As an array it is copied at once, where `copy_from_slice` goes number by number.
    if let Some(lent) = numbers.as_mut_array::<NUMBERS>() {
        *lent = house();
    }
    Ok(())
}
