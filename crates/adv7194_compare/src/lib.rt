// Two images side by side: which fields differ, and which registers do in bits outside all fields.
#![tactic(auto)]

ghost use Rattle.std.specs.Prelude.{◌≡◌, ◌&&◌, length};
ghost use Rattle.adv7194_compare.specs.Compare.{compared_as, can_be_read, is_taken, taken_into, whole as whole_of, compare_by, compare_of, OnlyEqual};

use adv7194_bus::REGISTERS;
use adv7194_bus::board::ALL_KNOWN;
use adv7194_reading::read;
pub use differences::{
    Differences, LAST_FIELD, field_differs, fields_differing, register_differs, registers_differing,
};
use refusals::{Fault, NO_FIELD, Refusal};

mod differences;

// How many numbers settings are.
const NUMBERS: usize = 49;

// Whether an image has the right length.
pub fn whole(image: &[u8]) -> bool
    ensures answer { result ≡ whole_of image.now }
{
    image.len() == REGISTERS as usize
}

// Two images side by side, where it is known whether reading takes both.
fn compare_by(readable: bool, a: &[u8], b: &[u8]) -> Result<Differences, Fault>
    ensures answer { compared_as result ≡ compare_by readable a.now b.now }
    ensures equal { OnlyEqual a.now b.now (compared_as result) }
{
    if !whole(a) {
        return Err(Refusal::ImageLength.at(NO_FIELD));
    }
    if !whole(b) {
        return Err(Refusal::ImageLength.at(NO_FIELD));
    }
    Ok(Differences {
        readable,
        fields: fields_differing(a, b),
        registers: registers_differing(a, b),
    })
}

// Whether reading takes an image, whose settings are then left in the 49 lent numbers.
pub fn taken(image: &[u8], numbers: &mut [i32]) -> bool
    ensures answer { result ≡ is_taken image.now (length numbers.old) }
    ensures memory { numbers.new ≡ taken_into image.now numbers.old }
{
    read(image, ALL_KNOWN, numbers).is_ok()
}

// Whether reading takes an image.
fn can_be_read(image: &[u8]) -> bool
    ensures answer { result ≡ can_be_read image.now }
{
    let mut numbers = [0i32; NUMBERS];
    taken(image, &mut numbers)
}

// Whether reading takes both images.
fn both_readable(a: &[u8], b: &[u8]) -> bool
    ensures answer { result ≡ (can_be_read a.now && can_be_read b.now) }
{
    if can_be_read(a) {
        return can_be_read(b);
    }
    false
}

// Two images side by side.
pub fn compare(a: &[u8], b: &[u8]) -> Result<Differences, Fault>
    ensures answer { compared_as result ≡ compare_of a.now b.now }
    ensures equal { OnlyEqual a.now b.now (compared_as result) }
{
    compare_by(both_readable(a, b), a, b)
}
