// Field 28, the subcarrier word: worked out from the standard and square pixel.
ghost use Rattle.std.specs.Prelude.{◌≡◌};
ghost use Rattle.field_table.specs.Writes.{puts};
ghost use Rattle.adv7194_table.specs.Blocks.{word};
ghost use Rattle.adv7194_table.specs.Table.{subcarrier, whole};
ghost use Rattle.adv7194_settings.specs.Wanted.{entry_writes};

use crate::placing::put_bytes;
use adv7194_subcarrier::field::word_codes;
use adv7194_table::blocks::WORD;
use adv7194_table::rows::{SQUARE_PIXEL, STANDARD};
use field_table::given;
use field_table::row::row_of;

// The word's bytes put in its registers.
pub(crate) fn want_word(numbers: &[i32], image: &mut [u8])
    ensures memory { image.new ≡ puts image.old (entry_writes numbers.now (whole subcarrier word)) }
{
    let standard = given(numbers, row_of(STANDARD));
    let square = given(numbers, row_of(SQUARE_PIXEL));
    let codes = word_codes(standard, square);
    put_bytes(WORD, &codes, image);
}
