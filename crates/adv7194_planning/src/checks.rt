// What is checked before a change is planned: the limit, the settings, and the registers that aren't known.
ghost use Rattle.std.specs.Prelude.{◌≡◌, List, [], ◌∷◌, ℕ, length};
ghost use Rattle.refusals.specs.Verdict.{verdict_as};
ghost use Rattle.refusals.specs.Order.{first_of, places_in};
ghost use Rattle.adv7194_bus.specs.Kind.{register_count};
ghost use Rattle.adv7194_bus.specs.Board.{board_of};
ghost use Rattle.adv7194_table.specs.Table.{table, order_of};
ghost use Rattle.adv7194_planning.specs.Aims.{Passing};
ghost use Rattle.adv7194_planning.specs.Rows.{row_planned};
ghost use Rattle.adv7194_planning.specs.Checks.{checks, checked_image};

use crate::registers::{partly_fixed_registers, unfixed_registers};
use adv7194_bus::limit_right;
use adv7194_settings::NUMBERS;
use adv7194_table::lowest_field;
use adv7194_wanted::want;
use refusals::{Fault, NO_FIELD, Refusal};

// Checks settings that pass the check against the known registers: an unknown one that they fix only in part is refused by the lowest field.
fn check_known(known: u64, numbers: &[i32]) -> Result<(), Fault>
    requires { Passing numbers.now }
    ensures answer { (image : List ℕ) (address limit room : ℕ) → verdict_as result ≡ first_of (row_planned (board_of image known) numbers.now address limit room) (places_in (λ f. 11 ∷ []) (order_of table)) tt }
{
    let unfixed = unfixed_registers(partly_fixed_registers(numbers), known);
    let field = lowest_field(unfixed);
    if field != NO_FIELD {
        return Err(Refusal::RegisterUnknown.at(field));
    }
    Ok(())
}

// Checks the limit, the settings and the known registers. What the settings want over the lent image takes its place; where they are refused, it doesn't count.
pub fn check(known: u64, numbers: &[i32], limit: u32, wanted: &mut [u8]) -> Result<(), Fault>
    requires { length wanted.old ≡ register_count }
    ensures answer { (address room : ℕ) → verdict_as result ≡ first_of (row_planned (board_of wanted.old known) numbers.now address limit room) checks tt }
    ensures memory { wanted.new ≡ checked_image wanted.old numbers.now limit }
{
    if !limit_right(limit) {
        return Err(Refusal::OutOfRange.at(NO_FIELD));
    }
    if numbers.len() != NUMBERS {
        return Err(Refusal::OutOfRange.at(NO_FIELD));
    }
    want(numbers, wanted)?;
    check_known(known, numbers)
}
