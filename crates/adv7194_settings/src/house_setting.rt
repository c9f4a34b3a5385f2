// The house setting (document 01's term), with the pedestal off (document 02, P8).
ghost use Rattle.std.specs.Prelude.{◌≡◌, ◌+◌, ◌<◌, length, set};
ghost use Rattle.field_table.specs.Rows.{row_of};
ghost use Rattle.adv7194_table.specs.Blocks.{block_of};
ghost use Rattle.adv7194_settings.specs.House.{with_ratio, house as house_setting};

use adv7194_table::blocks::{CURVE_A, CURVE_B, block_of};
use adv7194_table::rows::{CONTRAST, DNR_INPUT, OVERSAMPLING, PEDESTAL, U_SCALE, V_SCALE};
use field_table::row::row_of;
use field_table::store;

// How many numbers settings are.
pub const NUMBERS: usize = 49;

const YES: i32 = 1;

const NO: i32 = 0;

// Contrast and scales of one, in thousandths.
const WHOLE: i32 = 1000;

const FIRST_INPUT: i32 = 1;

// Where a curve's p and q stand among its numbers, and their number in the ratio 1/1.
const P: usize = 1;

const Q: usize = 2;

const ONE: i32 = 1;

// A field's number set.
fn put_number(numbers: &mut [i32], packed: u64, number: i32)
    ensures memory { numbers.new ≡ set numbers.old (row_of packed).index number }
{
    store(numbers, row_of(packed), number);
}

// A curve's numbers set to the ratio 1/1.
fn put_ratio(numbers: &mut [i32], packed: u64)
    requires { (block_of packed).index + 2 < length numbers.old }
    ensures memory { numbers.new ≡ with_ratio (block_of packed) 1 1 numbers.old }
{
    let index = block_of(packed).index;
    let p = index + P;
    let q = index + Q;
    numbers[p] = ONE;
    numbers[q] = ONE;
}

// 4x oversampling on, pedestal off, contrast and scales 1000, DNR input 1, both curves of ratio 1/1, every other number 0.
pub fn house() -> [i32; 49]
    ensures answer { result ≡ house_setting }
{
    let mut numbers = [0i32; NUMBERS];
    put_number(&mut numbers, OVERSAMPLING, YES);
    put_number(&mut numbers, PEDESTAL, NO);
    put_number(&mut numbers, CONTRAST, WHOLE);
    put_number(&mut numbers, U_SCALE, WHOLE);
    put_number(&mut numbers, V_SCALE, WHOLE);
    put_number(&mut numbers, DNR_INPUT, FIRST_INPUT);
    put_ratio(&mut numbers, CURVE_A);
    put_ratio(&mut numbers, CURVE_B);
    numbers
}
