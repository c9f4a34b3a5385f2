// One row at a time, after the rows before: a setting checked and placed, or a code judged and read. Called with a literal row it is compiled to the few
// instructions that this row wants.
ghost use Rattle.std.specs.Prelude.{◌≡◌, ◌^◌, ◌<◌, T, set, pos};
ghost use Rattle.refusals.specs.Refusal.{judged_as, value_or};
ghost use Rattle.refusals.specs.Verdict.{after, fault_of, verdict_as};
ghost use Rattle.field_table.specs.Rows.{row_of};
ghost use Rattle.field_table.specs.Coding.{plain_of};
ghost use Rattle.field_table.specs.Writes.{put as put_of};
ghost use Rattle.field_table.specs.Walk.{coding_fault, row_write, write_of, reading_fault, store as store_of, bits_fit, row_fits};

use crate::places::{given, held, put, store};
use crate::plain::{code, setting};
use crate::row::row_of;
use refusals::{Fault, Refusal};

// What a setting's coder answered, placed in a row's bits: 0 where it is a refusal, which is given with the row's field.
pub fn want_coded(
    before: Result<(), Fault>,
    coded: Result<u8, Refusal>,
    packed: u64,
    image: &mut [u8],
) -> Result<(), Fault>
    requires { T (bits_fit (row_of packed)) × (value_or 0 (judged_as coded) < 2 ^ (row_of packed).width) }
    ensures answer { verdict_as result ≡ after (verdict_as before) (fault_of (row_of packed).field (judged_as coded)) }
    ensures memory { image.new ≡ put_of image.old (row_write (row_of packed) (value_or 0 (judged_as coded))) }
{
    let row = row_of(packed);
    put(image, row, coded.unwrap_or(0));
    before?;
    coded.map_err(|refusal| refusal.at(row.field))?;
    Ok(())
}

// A plain row's setting checked, and its code put in its bits.
pub fn want_row(
    before: Result<(), Fault>,
    packed: u64,
    numbers: &[i32],
    image: &mut [u8],
) -> Result<(), Fault>
    requires { T (row_fits (row_of packed)) }
    ensures answer { verdict_as result ≡ after (verdict_as before) (coding_fault numbers.now (plain_of (row_of packed))) }
    ensures memory { image.new ≡ put_of image.old (write_of numbers.now (plain_of (row_of packed))) }
{
    let row = row_of(packed);
    let coded = code(row, given(numbers, row));
    want_coded(before, coded, packed, image)
}

// What a code's reader answered, stored at a row's index: 0 where it is a refusal, which is given with the row's field.
pub fn read_decoded(
    before: Result<(), Fault>,
    decoded: Result<i32, Refusal>,
    packed: u64,
    numbers: &mut [i32],
) -> Result<(), Fault>
    ensures answer { verdict_as result ≡ after (verdict_as before) (fault_of (row_of packed).field (judged_as decoded)) }
    ensures memory { numbers.new ≡ set numbers.old (row_of packed).index (value_or (pos 0) (judged_as decoded)) }
{
    let row = row_of(packed);
    // Kept: document 01 names `let .. else` for a field's reader, the refusal returned with its field.
    let Ok(number) = decoded else {
        store(numbers, row, 0);
        before?;
        return decoded.map_err(|refusal| refusal.at(row.field)).and(Ok(()));
    };
    store(numbers, row, number);
    before
}

// A plain row's code judged, and its setting stored.
pub fn read_row(
    before: Result<(), Fault>,
    packed: u64,
    image: &[u8],
    numbers: &mut [i32],
) -> Result<(), Fault>
    requires { T (row_fits (row_of packed)) }
    ensures answer { verdict_as result ≡ after (verdict_as before) (reading_fault image.now (plain_of (row_of packed))) }
    ensures memory { numbers.new ≡ store_of image.now numbers.old (plain_of (row_of packed)) }
{
    let row = row_of(packed);
    let decoded = setting(row, held(image, row));
    read_decoded(before, decoded, packed, numbers)
}
