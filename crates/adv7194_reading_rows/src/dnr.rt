// Fields 18 to 25, digital noise reduction: gains, threshold, border area, block size, input, mode, block offset.
ghost use Rattle.std.specs.Prelude.{◌≡◌};
ghost use Rattle.refusals.specs.Verdict.{after, verdict_as};
ghost use Rattle.field_table.specs.Walk.{judge_of, numbers_of};
ghost use Rattle.adv7194_table.specs.Fields.{dnr};

use adv7194_table::rows::{
    BLOCK_OFFSET, BLOCK_SIZE, BORDER_AREA, BORDER_GAIN, DATA_GAIN, DNR_INPUT, DNR_MODE, THRESHOLD,
};
use field_table::read_row;
use refusals::Fault;

// These fields judged and read, after the fields before.
pub fn read_dnr(before: Result<(), Fault>, image: &[u8], numbers: &mut [i32]) -> Result<(), Fault>
    ensures answer { verdict_as result ≡ after (verdict_as before) (judge_of image.now dnr) }
    ensures memory { numbers.new ≡ numbers_of image.now numbers.old dnr }
{
    let border_gain = read_row(before, BORDER_GAIN, image, numbers);
    let data_gain = read_row(border_gain, DATA_GAIN, image, numbers);
    let threshold = read_row(data_gain, THRESHOLD, image, numbers);
    let border_area = read_row(threshold, BORDER_AREA, image, numbers);
    let block_size = read_row(border_area, BLOCK_SIZE, image, numbers);
    let dnr_input = read_row(block_size, DNR_INPUT, image, numbers);
    let dnr_mode = read_row(dnr_input, DNR_MODE, image, numbers);
    read_row(dnr_mode, BLOCK_OFFSET, image, numbers)
}
