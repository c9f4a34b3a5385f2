// Fields 12 to 14, contrast and the scales: a row in thousandths with its reader.
ghost use Rattle.std.specs.Prelude.{◌≡◌};
ghost use Rattle.refusals.specs.Verdict.{after, verdict_as};
ghost use Rattle.field_table.specs.Rows.{row_of};
ghost use Rattle.field_table.specs.Walk.{reading_fault, store};
ghost use Rattle.adv7194_codes.specs.Thousandths.{UpTo, in_thousandths};

use adv7194_codes::thousandths_setting;
use field_table::row::row_of;
use field_table::{held, read_decoded};
use refusals::Fault;

// The code judged, and its setting stored.
pub(crate) fn read_thousandths(
    before: Result<(), Fault>,
    packed: u64,
    image: &[u8],
    numbers: &mut [i32],
) -> Result<(), Fault>
    requires { UpTo 1996 (row_of packed) }
    ensures answer { verdict_as result ≡ after (verdict_as before) (reading_fault image.now (in_thousandths (row_of packed))) }
    ensures memory { numbers.new ≡ store image.now numbers.old (in_thousandths (row_of packed)) }
{
    let decoded = thousandths_setting(packed, held(image, row_of(packed)));
    read_decoded(before, decoded, packed, numbers)
}
