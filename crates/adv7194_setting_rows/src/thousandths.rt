// Fields 12 to 14, contrast and the scales: a row in thousandths with its coder.
ghost use Rattle.std.specs.Prelude.{◌≡◌};
ghost use Rattle.refusals.specs.Verdict.{after, verdict_as};
ghost use Rattle.field_table.specs.Rows.{row_of};
ghost use Rattle.field_table.specs.Writes.{put};
ghost use Rattle.field_table.specs.Walk.{coding_fault, write_of};
ghost use Rattle.adv7194_codes.specs.Thousandths.{UpTo, in_thousandths};

use adv7194_codes::thousandths_code;
use field_table::row::row_of;
use field_table::{given, want_coded};
use refusals::Fault;

// The setting checked, and its code put in its bits.
pub(crate) fn want_thousandths(
    before: Result<(), Fault>,
    packed: u64,
    numbers: &[i32],
    image: &mut [u8],
) -> Result<(), Fault>
    requires { UpTo 1996 (row_of packed) }
    ensures answer { verdict_as result ≡ after (verdict_as before) (coding_fault numbers.now (in_thousandths (row_of packed))) }
    ensures memory { image.new ≡ put image.old (write_of numbers.now (in_thousandths (row_of packed))) }
{
    let coded = thousandths_code(packed, given(numbers, row_of(packed)));
    want_coded(before, coded, packed, image)
}
