// Settings that don't go together.
ghost use Rattle.std.specs.Prelude.{◌≡◌};
ghost use Rattle.refusals.specs.Refusal.{number_of};
ghost use Rattle.refusals.specs.Verdict.{after, fault_where, verdict_as};
ghost use Rattle.field_table.specs.Rows.{row_of};
ghost use Rattle.field_table.specs.Walk.{given as given_of};
ghost use Rattle.field_table.specs.Blocks.{is};
ghost use Rattle.adv7194_settings.specs.Rows.{square_with_oversampling, pedestal_with_pal};

use adv7194_table::rows::{OVERSAMPLING, PEDESTAL, SQUARE_PIXEL, STANDARD};
use field_table::given;
use field_table::row::row_of;
use refusals::{Fault, Refusal};

// A yes, and the standard PAL.
const ONE: i32 = 1;

// Whether a row's setting is yes, or PAL.
fn is_one(packed: u64, numbers: &[i32]) -> bool
    ensures answer { result ≡ is 1 (given_of numbers.now (row_of packed)) }
{
    given(numbers, row_of(packed)) == ONE
}

// The fault of a conflict, where there is one.
pub fn fault(conflict: bool, refusal: Refusal, field: u8) -> Result<(), Fault>
    ensures answer { verdict_as result ≡ fault_where conflict (number_of refusal) field }
{
    if conflict {
        return Err(refusal.at(field));
    }
    Ok(())
}

// Square pixel with 4x oversampling, after the fields before.
pub fn square_with_oversampling(before: Result<(), Fault>, numbers: &[i32]) -> Result<(), Fault>
    ensures answer { verdict_as result ≡ after (verdict_as before) (fault_where (square_with_oversampling numbers.now) 5 3) }
{
    before?;
    let square = is_one(SQUARE_PIXEL, numbers);
    let oversampling = is_one(OVERSAMPLING, numbers);
    fault(
        square & oversampling,
        Refusal::SquarePixelWithOversampling,
        row_of(OVERSAMPLING).field,
    )
}

// Pedestal with PAL, after the fields before.
pub fn pedestal_with_pal(before: Result<(), Fault>, numbers: &[i32]) -> Result<(), Fault>
    ensures answer { verdict_as result ≡ after (verdict_as before) (fault_where (pedestal_with_pal numbers.now) 6 4) }
{
    before?;
    let pedestal = is_one(PEDESTAL, numbers);
    let pal = is_one(STANDARD, numbers);
    fault(
        pedestal & pal,
        Refusal::PedestalWithPal,
        row_of(PEDESTAL).field,
    )
}
