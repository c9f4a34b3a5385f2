// A whole table of plain rows, row by row: settings checked, settings checked and placed, an image judged and read. That the table fits is asked of each
// function and not of a struct that holds it: each is called with a chip's constant table, and the struct's constructor would ask the same of the same callers.
ghost use Rattle.std.specs.Prelude.{◌≡◌, T};
ghost use Rattle.refusals.specs.Verdict.{verdict_as};
ghost use Rattle.field_table.specs.Coding.{plain_fields};
ghost use Rattle.field_table.specs.Writes.{puts};
ghost use Rattle.field_table.specs.Walk.{check_of, writes_of, judge_of, numbers_of, all_fit};

use crate::places::given;
use crate::plain::code;
use crate::row::row_of;
use crate::rows::{read_row, want_row};
use refusals::Fault;

// Settings checked: the first refusal in the table's order, with its field.
pub fn check(rows: &[u64], numbers: &[i32]) -> Result<(), Fault>
    requires { T (all_fit (plain_fields rows.now)) }
    ensures answer { verdict_as result ≡ check_of numbers.now (plain_fields rows.now) }
{
    for &packed in rows {
        let row = row_of(packed);
        code(row, given(numbers, row)).map_err(|refusal| refusal.at(row.field))?;
    }
    Ok(())
}

// Settings checked, and each one's code put in its row's bits: 0 where it is refused.
pub fn want(rows: &[u64], numbers: &[i32], image: &mut [u8]) -> Result<(), Fault>
    requires { T (all_fit (plain_fields rows.now)) }
    ensures answer { verdict_as result ≡ check_of numbers.now (plain_fields rows.now) }
    ensures memory { image.new ≡ puts image.old (writes_of numbers.now (plain_fields rows.now)) }
{
    let mut verdict = Ok(());
    for &packed in rows {
        verdict = want_row(verdict, packed, numbers, image);
    }
    verdict
}

// An image judged, and each row's setting stored at its index: 0 where its code is refused.
pub fn read(rows: &[u64], image: &[u8], numbers: &mut [i32]) -> Result<(), Fault>
    requires { T (all_fit (plain_fields rows.now)) }
    ensures answer { verdict_as result ≡ judge_of image.now (plain_fields rows.now) }
    ensures memory { numbers.new ≡ numbers_of image.now numbers.old (plain_fields rows.now) }
{
    let mut verdict = Ok(());
    for &packed in rows {
        verdict = read_row(verdict, packed, image, numbers);
    }
    verdict
}
