// Must-be-zero bits, by the table of every register's.
ghost use Rattle.std.specs.Prelude.{◌≡◌};
ghost use Rattle.refusals.specs.Refusal.{judged_as};
ghost use Rattle.refusals.specs.Verdict.{after, verdict_as};
ghost use Rattle.field_table.specs.Rows.{row_of};
ghost use Rattle.field_table.specs.Coding.{plain_of};
ghost use Rattle.field_table.specs.Walk.{reading_of, reading_fault, store};
ghost use Rattle.adv7194_reading_rows.specs.Zero.{ZeroBits};

use adv7194_table::must_be_zero;
use field_table::read_decoded;
use field_table::row::row_of;
use refusals::{Fault, Refusal};

// A row of must-be-zero bits: 0, or refused where one is set.
fn zero_setting(packed: u64, image: &[u8]) -> Result<i32, Refusal>
    requires { ZeroBits (row_of packed) }
    ensures answer { judged_as result ≡ reading_of image.now (plain_of (row_of packed)) }
{
    let register = row_of(packed).register;
    if register < image.len() {
        if image[register] & must_be_zero(register) != 0 {
            return Err(Refusal::Reserved);
        }
    }
    Ok(0)
}

// The bits judged.
pub(crate) fn read_zero(
    before: Result<(), Fault>,
    packed: u64,
    image: &[u8],
    numbers: &mut [i32],
) -> Result<(), Fault>
    requires { ZeroBits (row_of packed) }
    ensures answer { verdict_as result ≡ after (verdict_as before) (reading_fault image.now (plain_of (row_of packed))) }
    ensures memory { numbers.new ≡ store image.now numbers.old (plain_of (row_of packed)) }
{
    let decoded = zero_setting(packed, image);
    read_decoded(before, decoded, packed, numbers)
}
