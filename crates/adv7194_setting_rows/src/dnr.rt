// Fields 18 to 25, digital noise reduction: gains, threshold, border area, block size, input, mode, block offset.
ghost use Rattle.std.specs.Prelude.{◌≡◌};
ghost use Rattle.refusals.specs.Verdict.{after, verdict_as};
ghost use Rattle.field_table.specs.Writes.{puts};
ghost use Rattle.field_table.specs.Walk.{check_of, writes_of};
ghost use Rattle.adv7194_table.specs.Fields.{dnr};

use adv7194_table::rows::{
    BLOCK_OFFSET, BLOCK_SIZE, BORDER_AREA, BORDER_GAIN, DATA_GAIN, DNR_INPUT, DNR_MODE, THRESHOLD,
};
use field_table::want_row;
use refusals::Fault;

// These fields checked and placed, after the fields before.
pub fn want_dnr(before: Result<(), Fault>, numbers: &[i32], image: &mut [u8]) -> Result<(), Fault>
    ensures answer { verdict_as result ≡ after (verdict_as before) (check_of numbers.now dnr) }
    ensures memory { image.new ≡ puts image.old (writes_of numbers.now dnr) }
{
    let border_gain = want_row(before, BORDER_GAIN, numbers, image);
    let data_gain = want_row(border_gain, DATA_GAIN, numbers, image);
    let threshold = want_row(data_gain, THRESHOLD, numbers, image);
    let border_area = want_row(threshold, BORDER_AREA, numbers, image);
    let block_size = want_row(border_area, BLOCK_SIZE, numbers, image);
    let dnr_input = want_row(block_size, DNR_INPUT, numbers, image);
    let dnr_mode = want_row(dnr_input, DNR_MODE, numbers, image);
    want_row(dnr_mode, BLOCK_OFFSET, numbers, image)
}
