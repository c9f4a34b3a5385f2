// Field 28, the subcarrier word: worked out from the standard and square pixel that were read, and compared with its registers.
ghost use Rattle.std.specs.Prelude.{◌≡◌};
ghost use Rattle.refusals.specs.Verdict.{after, fault_of, verdict_as};
ghost use Rattle.field_table.specs.Walk.{given as given_of};
ghost use Rattle.adv7194_table.specs.Fields.{standard as standard_field, square_pixel};
ghost use Rattle.adv7194_table.specs.Blocks.{word};
ghost use Rattle.adv7194_subcarrier.specs.Answers.{word_read_as};
ghost use Rattle.adv7194_settings.specs.Held.{bytes_in};
ghost use Rattle.adv7194_reading_blocks.specs.Blocks.{word_reading};

use crate::places::byte;
use adv7194_subcarrier::field::word_setting;
use adv7194_table::blocks::WORD;
use adv7194_table::rows::{SQUARE_PIXEL, STANDARD};
use field_table::given;
use field_table::row::row_of;
use refusals::{Fault, Refusal};

// Its registers by the table, lowest byte first, and its number.
const BYTE_0: usize = (WORD / 0x100 % 0x100) as usize;

const BYTE_1: usize = BYTE_0 + 1;

const BYTE_2: usize = BYTE_0 + 2;

const BYTE_3: usize = BYTE_0 + 3;

const FIELD: u8 = (WORD / 0x1_0000_0000) as u8;

// The registers compared with the word of a standard and square pixel.
#[tactic(auto, unfolding(field_table::specs::Blocks::slice))]
fn compared(image: &[u8], standard: i32, square: i32) -> Result<(), Refusal>
    ensures answer { word_read_as result ≡ word_reading (bytes_in image.now word) standard square }
{
    word_setting(
        byte(image, BYTE_0),
        byte(image, BYTE_1),
        byte(image, BYTE_2),
        byte(image, BYTE_3),
        standard,
        square,
    )
}

// The field judged, after the fields before.
pub fn read_word(before: Result<(), Fault>, image: &[u8], numbers: &[i32]) -> Result<(), Fault>
    ensures answer { verdict_as result ≡ after (verdict_as before) (fault_of 28 (word_reading (bytes_in image.now word) (given_of numbers.now standard_field.row) (given_of numbers.now square_pixel.row))) }
{
    let standard = given(numbers, row_of(STANDARD));
    let square = given(numbers, row_of(SQUARE_PIXEL));
    before?;
    let read = compared(image, standard, square);
    // Kept: document 01 names `let .. else` for a field's reader, the refusal returned with its field.
    let Ok(agrees) = read else {
        return read.map_err(|refusal| refusal.at(FIELD));
    };
    Ok(agrees)
}
