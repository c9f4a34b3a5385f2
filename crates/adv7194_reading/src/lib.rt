// A board judged and read: the settings that it holds, as 49 numbers. The house setting is handed out in the same way.
#![tactic(auto)]

ghost use Rattle.std.specs.Prelude.{◌≡◌, length};
ghost use Rattle.refusals.specs.Verdict.{verdict_as};
ghost use Rattle.refusals.specs.Order.{Exactly};
ghost use Rattle.adv7194_bus.specs.Board.{board_of};
ghost use Rattle.adv7194_settings.specs.Reading.{row_read, read_order, read_of, read_left};

mod answers;
mod house;
mod reading;

use adv7194_bus::REGISTERS;
use adv7194_settings::NUMBERS;
use adv7194_table::lowest_field;
use answers::with_unknown;
pub use house::read_house;
use reading::{read_first, read_last};
use refusals::{Fault, NO_FIELD, Refusal};

// The settings of a board, left in the 49 lent numbers; on a refusal these are as they were. The board is an image and the map of its known registers; the
// byte of a register that is not known means nothing.
pub fn read(image: &[u8], known: u64, numbers: &mut [i32]) -> Result<(), Fault>
    ensures answer { verdict_as result ≡ read_of (board_of image.now known) (length numbers.old) }
    ensures memory { numbers.new ≡ read_left (board_of image.now known) numbers.old }
    ensures exactly { Exactly (row_read (board_of image.now known) (length numbers.old)) read_order tt (verdict_as result) }
{
    if image.len() != REGISTERS as usize {
        return Err(Refusal::ImageLength.at(NO_FIELD));
    }
    if numbers.len() != NUMBERS {
        return Err(Refusal::OutOfRange.at(NO_FIELD));
    }
    let mut held = [0i32; NUMBERS];
    let first = read_first(image, &mut held);
    let last = read_last(first, image, &mut held);
    with_unknown(last, lowest_field(!known))?;
    // As arrays they are copied at once, where `copy_from_slice` goes number by number.
    if let Some(lent) = numbers.as_mut_array::<NUMBERS>() {
        *lent = held;
    }
    Ok(())
}
